// A text is read, and its table is saved.
use crate::text_out::{HALF, TEXT_LIMIT};
use crate::text_told::{long_text, other_text, refused_text, unread_text};
use answers::of_report;
use files::{Status, read_file};
use list_text::{hold_text, put_text, spot_of, take_text};
use paper::{BYTE_LIMIT, FULL_PLACES};
use tables::saved;
use texts::first_of;

// One byte more than a text can have, so that a longer one is seen, in three parts that are as long as each other.
const READ: usize = TEXT_LIMIT + 1;

const THIRD: usize = READ / 3;

// The line of the table's text, which is put into the lent bytes, in which the one that was read differs from it.
fn tell_in(file: &[u8], table: &[u8], text: &[u8], at: usize, wanted: &mut [u8]) -> Status {
    let spot = spot_of(text, at);
    let n = put_text(table, wanted).unwrap_or(0);
    other_text(file, spot, first_of(wanted, n))
}

fn tell_other(file: &[u8], table: &[u8], text: &[u8], at: usize) -> Status {
    let mut wanted = [[0u8; HALF]; 2];
    tell_in(file, table, text, at, wanted.as_flattened_mut())
}

// An accepted table of n types is saved, if its text is the one that was read.
fn save_table(
    rt: &HostRuntime,
    file: &[u8],
    table: &[u8],
    text: &mut [u8],
    out: &[u8],
    n: u32,
) -> Status {
    match hold_text(table, text) {
        Ok(()) => saved(rt, out, b": table", table, n),
        Err(at) => tell_other(file, table, text, at),
    }
}

// The table of a text is checked.
fn check_table(rt: &HostRuntime, file: &[u8], table: &[u8], text: &mut [u8], out: &[u8]) -> Status {
    let mut index = [0u32; FULL_PLACES];
    let mut work = [0u32; FULL_PLACES];
    match gate::check(table, &mut index, &mut work) {
        Err(r) => refused_text(file, table, of_report(r)),
        Ok(n) => save_table(rt, file, table, text, out, n),
    }
}

fn make_of(rt: &HostRuntime, file: &[u8], text: &mut [u8], out: &[u8]) -> Status {
    let mut strings = [0u8; BYTE_LIMIT];
    let mut table = [0u8; BYTE_LIMIT];
    match take_text(text, &mut strings, &mut table) {
        Err(m) => unread_text(file, text, m),
        Ok(n) => check_table(rt, file, first_of(&table, n), text, out),
    }
}

// The text is in the first bytes of those that were lent for it.
fn make_first(rt: &HostRuntime, file: &[u8], text: &mut [u8], n: usize, out: &[u8]) -> Status {
    if text.len() < n {
        return Status::Failed;
    }
    make_of(rt, file, &mut text[..n], out)
}

// The text is read into the lent bytes.
fn make_in(rt: &HostRuntime, file: &[u8], text: &mut [u8], out: &[u8]) -> Status {
    let Some(n) = read_file(rt, file, text) else {
        return Status::Failed;
    };
    if TEXT_LIMIT < n {
        return long_text(file);
    }
    make_first(rt, file, text, n, out)
}

pub fn make_text_file(rt: &HostRuntime, file: &[u8], out: &[u8]) -> Status {
    let mut text = [[0u8; THIRD]; 3];
    make_in(rt, file, text.as_flattened_mut(), out)
}
