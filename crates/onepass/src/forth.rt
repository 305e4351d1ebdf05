// The pass from the first record to the last: the place of each goes into the index, and its type's state into the work slice.
ghost use Rattle.std.specs.Prelude.{drop, length, true, ◌⊎◌, ◌≡◌, ◌+◌, ◌-◌, ◌<◌, ◌≤◌};
ghost use Rattle.onepass.specs.Forth.{Begins, PutDown, RanOf, Stepped, extent};
ghost use Rattle.paper.specs.rules.Table.{kind_in};
ghost use Rattle.paper.specs.rules.Walk.{known};

use crate::seen::{bare, group, int, other};
use glance::{STRANGE, is_open};
use paper::{Order, Place, TYPE_LIMIT};
use rows::{is_known, kind_of, tail_words, vlen_of};

// How the pass went: a record was not told; or every type is settled, or some are open. An enum of its own: each of the three goes on another way.
#[derive(Clone, Copy)]
pub(crate) enum Ran {
    Untold,
    Settled(u32),
    Open(u32),
}

// The first place that no type can have.
const FIRST_PAST: usize = TYPE_LIMIT as usize + 1;

// The lower of two numbers.
fn lower(a: usize, b: usize) -> usize
    ensures { (result ≤ a) × (result ≤ b) }
{
    if a < b {
        return a;
    }
    b
}

// What is told of type k, and its place, are put down: the place behind its record, or 0.
fn put(s: u32, size: u32, at: u32, k: u32, index: &mut [u32], work: &mut [u32]) -> u32
    requires { (k < length index.old) × (k < length work.old) × (at + size < 4294967296) }
    ensures { (result ≡ 0) ⊎ PutDown s size at k index.old work.old result index.new work.new }
{
    if s == STRANGE {
        return 0;
    }
    index[k as usize] = at;
    work[k as usize] = s;
    at + size
}

// How many bytes a record has, or 0 where its kind is not known.
fn extent_of(info: u32) -> u32
    ensures { (result ≡ 0) ⊎ ((known (kind_in info) ≡ true) × (result ≡ extent info)) }
{
    if !is_known(kind_of(info)) {
        return 0;
    }
    12 + 4 * tail_words(info)
}

// A record that may have more words than a head and one: of a struct or a union, or of a kind that comes less often.
fn long<'a>(
    order: Order,
    bytes: &[u8],
    room: u32,
    base: &'a [u8],
    strings: &'a [u8],
    at: u32,
    k: u32,
    index: &mut [u32],
    work: &mut [u32],
) -> u32
    requires { (k < length index.old) × (k < length work.old) × (at + room < 4294967296) }
    ensures { (result ≡ 0) ⊎ Stepped order base.now strings.now bytes.now room at k index.old work.old result index.new work.new }
{
    let info = words::read(order, bytes, Place(4));
    match info / 65536 {
        // STRUCT and UNION without a kind_flag
        0x0400 | 0x0500 => {
            let size = 12 + 12 * vlen_of(info);
            if room < size {
                return 0;
            }
            let s = group(order, bytes, base, strings, work);
            put(s, size, at, k, index, work)
        }
        _ => {
            let size = extent_of(info);
            if size == 0 {
                return 0;
            }
            if room < size {
                return 0;
            }
            let s = other(order, bytes, base, strings, work);
            put(s, size, at, k, index, work)
        }
    }
}

// The record at a place, of type k: the place behind it, or 0. The place is a number for each sort of record, so that no look at the next waits
// for what is read of this one.
fn step<'a>(
    order: Order,
    b: &[u8],
    at: u32,
    end: u32,
    base: &'a [u8],
    strings: &'a [u8],
    k: u32,
    index: &mut [u32],
    work: &mut [u32],
) -> u32
    requires { (k < length index.old) × (k < length work.old) × (at ≤ end) × (end ≤ length b.now) }
    ensures { (result ≡ 0) ⊎ Stepped order base.now strings.now (drop at b.now) (end - at) at k index.old work.old result index.new work.new }
{
    let room = end - at;
    if room < 12 {
        return 0;
    }
    let from = at as usize;
    let bytes = &b[from..];
    match words::read(order, bytes, Place(4)) {
        // PTR, TYPEDEF, VOLATILE, CONST, RESTRICT
        0x0200_0000 | 0x0800_0000 | 0x0900_0000 | 0x0a00_0000 | 0x0b00_0000 => {
            let s = bare(order, bytes, base, strings, work);
            put(s, 12, at, k, index, work)
        }
        // INT
        0x0100_0000 => {
            if room < 16 {
                return 0;
            }
            let s = int(order, bytes, base, strings, work);
            put(s, 16, at, k, index, work)
        }
        _ => long(order, bytes, room, base, strings, at, k, index, work),
    }
}

// All records of a blob of which phase 1 has nothing to say, into clear slices.
pub(crate) fn forth<'a>(
    order: Order,
    b: &[u8],
    end: u32,
    base: &'a [u8],
    strings: &'a [u8],
    index: &mut [u32],
    work: &mut [u32],
) -> Ran
    requires { Begins order base.now strings.now b.now end index.old work.old }
    ensures { RanOf result b.now (length index.old) (length work.old) index.new work.new }
{
    let places = lower(index.len(), work.len());
    let most = lower(places, FIRST_PAST);
    if most == 0 {
        return Ran::Untold;
    }
    let mut at: u32 = 24;
    let mut k: u32 = 0;
    let mut unsettled = false;
    // A while: each record says where the next begins, so there is no count to go over.
    while at < end {
        if most <= (k as usize) + 1 {
            return Ran::Untold;
        }
        k += 1;
        let next = step(order, b, at, end, base, strings, k, index, work);
        if next == 0 {
            return Ran::Untold;
        }
        unsettled = unsettled | is_open(work[k as usize]);
        at = next;
    }
    if unsettled {
        return Ran::Open(k);
    }
    Ran::Settled(k)
}
