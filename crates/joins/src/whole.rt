// All tables of a call are joined, and the joined one is saved.
use crate::given::{Given, out_of};
use crate::steps::{KEPT, join_rest, read_table};
use crate::twins::note_twins;
use files::{READ_LIMIT, Status, arg};
use paper::{BYTE_LIMIT, FULL_PLACES};
use tables::{count, saved};
use texts::first_of;

// The joined table is saved under the name that is the argument behind the tables.
fn saved_out(rt: &HostRuntime, given: Given, joined: &[u8], n: u32) -> Status {
    let mut s = [0u8; 4096];
    let len = arg(rt, out_of(given), &mut s);
    saved(rt, first_of(&s, len), b": joined", joined, n)
}

// The whole join is saved, and then what the tables have in two shapes is told.
fn finish(
    rt: &HostRuntime,
    given: Given,
    all: &[u8; READ_LIMIT],
    len: usize,
    index: &mut [u32; FULL_PLACES],
    before: &[u32; KEPT],
) -> Status {
    let joined = first_of(all, len);
    let n = count(joined, index);
    let status = saved_out(rt, given, joined, n);
    if let Status::Done = status {
        note_twins(rt, given, joined, index, n, before);
    }
    status
}

// The tables are joined in slices of full size, which serve for every step.
fn join_behind(rt: &HostRuntime, given: Given, all: &mut [u8; READ_LIMIT], n: usize) -> Status {
    let mut next = [0u8; READ_LIMIT];
    let mut joined = [0u8; BYTE_LIMIT];
    let mut index = [0u32; FULL_PLACES];
    let mut work = [0u32; FULL_PLACES];
    let mut before = [0u32; KEPT];
    match join_rest(
        rt,
        given,
        all,
        n,
        &mut next,
        &mut joined,
        &mut index,
        &mut work,
        &mut before,
    ) {
        Err(status) => status,
        Ok(len) => finish(rt, given, all, len, &mut index, &before),
    }
}

// The files are read, joined from the left and saved as one.
pub fn join_files(rt: &HostRuntime, given: Given) -> Status {
    let mut all = [0u8; READ_LIMIT];
    match read_table(rt, given, 0, &mut all) {
        Err(status) => status,
        Ok(n) => join_behind(rt, given, &mut all, n),
    }
}
