// A table is read, and cut behind so many types and so many bytes of strings.
use crate::halves::{Outs, Part, no_cut, saved, short};
use answers::of_report;
use files::{Modes, READ_LIMIT, Status, read_file};
use paper::{BYTE_LIMIT, FULL_PLACES, NameOff, TypeNo};
use parts::SplitError;
use split::split;
use tables::{count, refused, strings_len};
use texts::first_of;

// Where a table is cut: behind so many types and bytes of strings.
#[derive(Clone, Copy)]
pub struct Cut {
    pub types: u32,
    pub strings: u32,
}

// The numbers of an accepted table; or how the call has ended without them.
fn numbers_in(
    file: &[u8],
    blob: &[u8],
    index: &mut [u32],
    work: &mut [u32],
) -> Result<Cut, Status> {
    match gate::check(blob, index, work) {
        Err(r) => Err(refused(false, file, blob, index, of_report(r))),
        Ok(types) => Ok(Cut {
            types,
            strings: strings_len(blob),
        }),
    }
}

// The numbers of the table in a file.
fn numbers_like(
    rt: &HostRuntime,
    file: &[u8],
    blob: &mut [u8; READ_LIMIT],
    index: &mut [u32; FULL_PLACES],
    work: &mut [u32; FULL_PLACES],
) -> Result<Cut, Status> {
    let n = read_file(rt, file, blob).ok_or(Status::Failed)?;
    numbers_in(file, first_of(blob, n), index, work)
}

fn numbers_of(
    rt: &HostRuntime,
    cut: Option<Cut>,
    like: &[u8],
    blob: &mut [u8; READ_LIMIT],
    index: &mut [u32; FULL_PLACES],
    work: &mut [u32; FULL_PLACES],
) -> Result<Cut, Status> {
    match cut {
        Some(cut) => Ok(cut),
        None => numbers_like(rt, like, blob, index, work),
    }
}

// The parts are the first bytes of what is lent.
fn save_parts(
    rt: &HostRuntime,
    outs: Outs,
    first: &[u8; READ_LIMIT],
    first_len: u32,
    second: &[u8; BYTE_LIMIT],
    second_len: u32,
    index: &mut [u32; FULL_PLACES],
) -> Status {
    let first = first_of(first, first_len as usize);
    let second = first_of(second, second_len as usize);
    let first = Part {
        bytes: first,
        n: count(first, index),
    };
    let second = Part {
        bytes: second,
        n: count(second, index),
    };
    saved(rt, outs, first, second)
}

// A table is cut behind so many types and bytes of strings.
fn cut_table(
    rt: &HostRuntime,
    file: &[u8],
    blob: &[u8],
    cut: Cut,
    outs: Outs,
    first: &mut [u8; READ_LIMIT],
    index: &mut [u32; FULL_PLACES],
    work: &mut [u32; FULL_PLACES],
) -> Status {
    let mut second = [0u8; BYTE_LIMIT];
    match split(
        blob,
        TypeNo(cut.types),
        NameOff(cut.strings),
        index,
        work,
        first,
        &mut second,
    ) {
        Ok((n, m)) => save_parts(rt, outs, first, n, &second, m, index),
        Err(SplitError::Refused(r)) => refused(false, file, blob, index, of_report(r)),
        Err(SplitError::NoCut) => no_cut(file, cut.types, cut.strings),
        Err(SplitError::OutputShort) => short(file),
    }
}

fn cut_at(
    rt: &HostRuntime,
    file: &[u8],
    cut: Cut,
    outs: Outs,
    first: &mut [u8; READ_LIMIT],
    index: &mut [u32; FULL_PLACES],
    work: &mut [u32; FULL_PLACES],
) -> Status {
    let mut joined = [0u8; READ_LIMIT];
    let Some(n) = read_file(rt, file, &mut joined) else {
        return Status::Failed;
    };
    let blob = first_of(&joined, n);
    cut_table(rt, file, blob, cut, outs, first, index, work)
}

// The table in a file is cut in slices of full size, and its parts are saved under two names: where it is told, else like the table in
// another file, which waits where the first part will stand.
pub fn cut_files(
    rt: &HostRuntime,
    file: &[u8],
    cut: Option<Cut>,
    like: &[u8],
    one: &[u8],
    two: &[u8],
    modes: Modes,
) -> Status {
    let mut first = [0u8; READ_LIMIT];
    let mut index = [0u32; FULL_PLACES];
    let mut work = [0u32; FULL_PLACES];
    match numbers_of(rt, cut, like, &mut first, &mut index, &mut work) {
        Err(status) => status,
        Ok(cut) => {
            let outs = Outs { one, two, modes };
            cut_at(rt, file, cut, outs, &mut first, &mut index, &mut work)
        }
    }
}
