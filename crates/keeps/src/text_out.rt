// A table is read, and its text is saved.
use crate::text_told::long_text;
use answers::of_report;
use files::{READ_LIMIT, Status, read_file};
use lines::STDERR_FILENO;
use list_text::{put_text, take_text};
use paper::{BYTE_LIMIT, FULL_PLACES};
use tables::{refused, saved};
use texts::first_of;

// As many bytes as a text may have. It is for people. The prover takes no array that is as long: it is lent in two halves, and is one slice.
pub(crate) const TEXT_LIMIT: usize = 524288;

pub(crate) const HALF: usize = TEXT_LIMIT / 2;

// A text is read as this very table. It is asked of every text before it is saved.
fn says(text: &[u8], blob: &[u8]) -> bool {
    let mut strings = [0u8; BYTE_LIMIT];
    let mut table = [0u8; BYTE_LIMIT];
    match take_text(text, &mut strings, &mut table) {
        Ok(n) => check::same(first_of(&table, n), blob),
        Err(_) => false,
    }
}

// The text of an accepted table of n types, in the lent bytes.
fn save_in(
    rt: &HostRuntime,
    file: &[u8],
    blob: &[u8],
    out: &[u8],
    n: u32,
    text: &mut [u8],
) -> Status {
    let Some(len) = put_text(blob, text) else {
        return long_text(file);
    };
    let s = first_of(text, len);
    if !says(s, blob) {
        io::write_all(
            STDERR_FILENO,
            b"scrieve: the text does not give the table back: nothing is written\n",
        );
        return Status::Failed;
    }
    saved(rt, out, b": text", s, n)
}

fn save_text(rt: &HostRuntime, file: &[u8], blob: &[u8], out: &[u8], n: u32) -> Status {
    let mut text = [[0u8; HALF]; 2];
    save_in(rt, file, blob, out, n, text.as_flattened_mut())
}

fn text_table(rt: &HostRuntime, file: &[u8], blob: &[u8], out: &[u8]) -> Status {
    let mut index = [0u32; FULL_PLACES];
    let mut work = [0u32; FULL_PLACES];
    match gate::check(blob, &mut index, &mut work) {
        Err(r) => refused(false, file, blob, &mut index, of_report(r)),
        Ok(n) => save_text(rt, file, blob, out, n),
    }
}

pub fn list_text_file(rt: &HostRuntime, file: &[u8], out: &[u8]) -> Status {
    let mut blob = [0u8; READ_LIMIT];
    let Some(n) = read_file(rt, file, &mut blob) else {
        return Status::Failed;
    };
    text_table(rt, file, first_of(&blob, n), out)
}
