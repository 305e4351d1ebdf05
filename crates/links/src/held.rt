// The next by-value reference of a record: the one place that says which references the first sort of walk follows.
ghost use Rattle.std.specs.Prelude.{◌≡◌};
ghost use Rattle.links.specs.Holding.{HeldIs, is_open, slot_count};
ghost use Rattle.paper.specs.terms.Reading.{record_in};

use paper::{Order, Place, TypeNo};
use recall::FIRST_TELLING;
use rows::{held_place, kind_of, vlen_of};

// How many slots a record has, by where the first stands.
fn slot_count(place: u32, info: u32) -> u32
    ensures { result ≡ slot_count place info }
{
    if place == 16 {
        return vlen_of(info);
    }
    if place == 0 {
        return 0;
    }
    1
}

// A type is not done, and is no void.
fn is_open(work: &[u32], u: u32) -> bool
    ensures { result ≡ is_open work.now u }
{
    if u == 0 {
        return false;
    }
    let i = u as usize;
    if work.len() <= i {
        return true;
    }
    work[i] < FIRST_TELLING
}

// The first type that a record holds from a slot on and that is not done. A member has three words, so slots stand twelve bytes apart.
pub(crate) fn next_open(
    order: Order,
    bytes: &[u8],
    work: &[u32],
    from: u32,
) -> Option<(TypeNo, u32)>
    ensures { HeldIs (record_in order bytes.now) work.now from result }
{
    let info = words::read(order, bytes, Place(4));
    let place = held_place(kind_of(info));
    let end = slot_count(place, info);
    for i in from..end {
        let at = place + 12 * i;
        let u = words::read(order, bytes, Place(at));
        if is_open(work, u) {
            return Some((TypeNo(u), i + 1));
        }
    }
    None
}
