// What is read, from a file or from standard input where the name is a dash.
ghost use Rattle.std.specs.Prelude.{◌≤◌, IfOk, length};

use crate::failures::{fail, fail_text};
use crate::system::open_read;
use paper::BYTE_LIMIT;
use std::fs::File;
use std::io::{Error, Read as Reader, Result, Stdin};

// As many bytes as are read of a file: one more than a table may have, so that a file that is too large gets report 1.
pub const READ_LIMIT: usize = BYTE_LIMIT + 1;

// What whole bytes are read from.
#[derive(Drop)]
pub enum Opened {
    Standard(Stdin),
    Named(File),
}

// The next bytes, 0 at the end.
fn read_some(from: &mut Opened, s: &mut [u8]) -> Result<usize>
    ensures { IfOk result (λ n. n ≤ length s.old) }
{
    match from {
        Opened::Standard(input) => input.read(s),
        Opened::Named(file) => file.read(s),
    }
}

// Reads until the input ends, the slice is full or a read fails.
fn read_from(from: &mut Opened, s: &mut [u8]) -> Result<usize>
    ensures { IfOk result (λ n. n ≤ length s.old) }
{
    let mut done = 0;
    // A while: each read says how far it has come, so there is no count to go over.
    while done < s.len() {
        let n = read_some(from, &mut s[done..])?;
        if n == 0 {
            return Ok(done);
        }
        done += n;
    }
    Ok(done)
}

// What is read under a name: a file, or standard input where the name is a dash; nothing where there is none, and standard error says why.
pub fn open_input(rt: &HostRuntime, name: &[u8]) -> Option<Opened> {
    if check::same(name, b"-") {
        return Some(Opened::Standard(rt.stdin()));
    }
    match open_read(rt, name) {
        Ok(file) => Some(Opened::Named(file)),
        Err(why) => {
            fail(name, why);
            None
        }
    }
}

pub fn close_input(_from: Opened) {}

fn fail_input(name: &[u8], why: Error) {
    if check::same(name, b"-") {
        fail_text(b"standard input", why);
        return;
    }
    fail(name, why);
}

// The next bytes of what is open under a name, as many as the slice holds. How many there are is answered; nothing where they
// cannot be read, and standard error says why.
pub fn read_input(name: &[u8], from: &mut Opened, s: &mut [u8]) -> Option<usize> {
    match read_from(from, s) {
        Ok(n) => Some(n),
        Err(why) => {
            fail_input(name, why);
            None
        }
    }
}

// The bytes of the file, as many as the slice holds. Nothing where it cannot be read, and standard error says why.
pub fn read_file(rt: &HostRuntime, name: &[u8], s: &mut [u8]) -> Option<usize> {
    let mut from = open_input(rt, name)?;
    read_input(name, &mut from, s)
}
