// One table after another is read and joined to those before it. How they are grouped makes no difference to a byte (`join-brackets`).
use crate::given::{Given, TABLES, word_of};
use crate::refusals::unjoined;
use files::{READ_LIMIT, Status, append, arg, read_file};
use paper::{BYTE_LIMIT, FULL_PLACES};
use tables::count;
use texts::first_of;

// So many tables have a place for what is known of each.
pub(crate) const KEPT: usize = TABLES as usize;

// How many bytes the file of a table has, counted from 0.
pub(crate) fn read_table(
    rt: &HostRuntime,
    given: Given,
    k: u32,
    blob: &mut [u8; READ_LIMIT],
) -> Result<usize, Status> {
    let mut s = [0u8; 4096];
    let n = arg(rt, word_of(given, k), &mut s);
    read_file(rt, first_of(&s, n), blob).ok_or(Status::Failed)
}

// How many types stand before a table is kept.
fn keep(before: &mut [u32; KEPT], k: u32, n: u32) {
    let i = k as usize;
    if i < KEPT {
        before[i] = n;
    }
}

// The next table is joined to the first bytes of `all`, which the joined table then takes the place of. How many bytes that has is answered;
// an error is how the call has ended without it.
fn join_next(
    rt: &HostRuntime,
    given: Given,
    k: u32,
    all: &mut [u8; READ_LIMIT],
    n: usize,
    next: &[u8],
    joined: &mut [u8; BYTE_LIMIT],
    index: &mut [u32; FULL_PLACES],
    work: &mut [u32; FULL_PLACES],
) -> Result<usize, Status> {
    let answer = join::join(first_of(all, n), next, index, work, joined);
    if let Ok(len) = answer {
        return Ok(append(all, 0, first_of(joined, len as usize)));
    }
    Err(unjoined(rt, answer, given, k, first_of(all, n), next))
}

// The next table is read, and how many types stand before it is kept.
fn read_and_join(
    rt: &HostRuntime,
    given: Given,
    k: u32,
    all: &mut [u8; READ_LIMIT],
    n: usize,
    next: &mut [u8; READ_LIMIT],
    joined: &mut [u8; BYTE_LIMIT],
    index: &mut [u32; FULL_PLACES],
    work: &mut [u32; FULL_PLACES],
    before: &mut [u32; KEPT],
) -> Result<usize, Status> {
    let len = read_table(rt, given, k, next)?;
    keep(before, k, count(first_of(all, n), index));
    join_next(
        rt,
        given,
        k,
        all,
        n,
        first_of(next, len),
        joined,
        index,
        work,
    )
}

// All tables behind the first, which has so many bytes.
pub(crate) fn join_rest(
    rt: &HostRuntime,
    given: Given,
    all: &mut [u8; READ_LIMIT],
    n: usize,
    next: &mut [u8; READ_LIMIT],
    joined: &mut [u8; BYTE_LIMIT],
    index: &mut [u32; FULL_PLACES],
    work: &mut [u32; FULL_PLACES],
    before: &mut [u32; KEPT],
) -> Result<usize, Status> {
    let mut n = n;
    for k in 1..given.count {
        n = read_and_join(rt, given, k, all, n, next, joined, index, work, before)?;
    }
    Ok(n)
}
