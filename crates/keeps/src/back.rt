// A list is read, and its table is saved.
use crate::told::{LIST_LIMIT, long, short, table_refused, unread};
use answers::of_report;
use files::{Status, read_file};
use lists::MakeError;
use paper::{BYTE_LIMIT, FULL_PLACES};
use tables::{count, saved};
use texts::first_of;

// One byte more than a list can have, so that a longer one is seen.
const READ: usize = LIST_LIMIT + 1;

// The table of a list in slices of full size.
fn make_table(rt: &HostRuntime, file: &[u8], s: &[u8], out: &[u8]) -> Status {
    let mut index = [0u32; FULL_PLACES];
    let mut work = [0u32; FULL_PLACES];
    let mut bytes = [0u8; BYTE_LIMIT];
    let mut table = [0u8; BYTE_LIMIT];
    match list::read(s, &mut index, &mut work, &mut bytes, &mut table) {
        Ok(n) => {
            let made = first_of(&table, n as usize);
            saved(rt, out, b": table", made, count(made, &mut index))
        }
        Err(MakeError::Unread(f)) => unread(file, f),
        Err(MakeError::Short) => short(file),
        Err(MakeError::Refused(r)) => table_refused(file, of_report(r)),
    }
}

pub fn make_file(rt: &HostRuntime, file: &[u8], out: &[u8]) -> Status {
    let mut s = [0u8; READ];
    let Some(n) = read_file(rt, file, &mut s) else {
        return Status::Failed;
    };
    if LIST_LIMIT < n {
        return long(file);
    }
    make_table(rt, file, first_of(&s, n), out)
}
