// A table is read, and its list is saved.
use crate::told::{LIST_LIMIT, short};
use answers::of_report;
use files::{READ_LIMIT, Status, read_file};
use lists::WriteError;
use paper::FULL_PLACES;
use tables::{count, refused, saved};
use texts::first_of;

// The list of a table in a slice that holds any.
fn list_table(rt: &HostRuntime, file: &[u8], blob: &[u8], out: &[u8]) -> Status {
    let mut index = [0u32; FULL_PLACES];
    let mut work = [0u32; FULL_PLACES];
    let mut s = [0u8; LIST_LIMIT];
    match list::write(blob, &mut index, &mut work, &mut s) {
        Ok(n) => saved(
            rt,
            out,
            b": list",
            first_of(&s, n as usize),
            count(blob, &mut index),
        ),
        Err(WriteError::OutputShort) => short(file),
        Err(WriteError::Refused(r)) => refused(false, file, blob, &mut index, of_report(r)),
    }
}

pub fn list_file(rt: &HostRuntime, file: &[u8], out: &[u8]) -> Status {
    let mut blob = [0u8; READ_LIMIT];
    let Some(n) = read_file(rt, file, &mut blob) else {
        return Status::Failed;
    };
    list_table(rt, file, first_of(&blob, n), out)
}
