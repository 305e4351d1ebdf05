// Which entry of a record is the first that breaks the rule of a report: the record is cut to its first entries, and what judges it
// is asked again. A rule that some entries break is broken by more of them too, so halving finds the entry.
use layout::layout_ok;
use links::{Unlinked, links};
use paper::{BYTE_LIMIT, FULL_PLACES, Order, Place, TypeNo};
use rows::{entry_words, kind_of, vlen_of};
use texts::first_of;
use views::{View, record_of, strings_in};
use words::lay;

// An info word with another number of entries.
pub(crate) fn cut_info(info: u32, entries: u32) -> u32 {
    info / 65536 * 65536 + entries % 65536
}

// What is walked from a type has no end.
fn is_endless(said: Result<(), Unlinked>, t: u32) -> bool {
    match said {
        Err(Unlinked::Endless(first)) => first.0 == t,
        _ => false,
    }
}

// The type breaks a rule of the layout: what phase 6 asks of other types, phases 4 and 5 leave in the work slice.
fn is_misplaced<'a>(
    none: &'a [u8],
    b: &'a [u8],
    index: &[u32],
    view: View,
    work: &mut [u32],
    t: TypeNo,
) -> bool {
    match links(none, b, index, view, work) {
        Ok(()) => !layout_ok(none, b, index, view, work, t),
        Err(Unlinked::Reference(_)) => false,
        Err(Unlinked::Endless(_)) => false,
    }
}

// The type breaks the rule of the report.
fn is_broken(
    b: &[u8],
    index: &[u32],
    work: &mut [u32; FULL_PLACES],
    n: u32,
    t: u32,
    number: u32,
) -> bool {
    let none = &b[..0];
    let order = words::order_of(b);
    let view = View {
        n,
        order,
        before: 0,
    };
    let r = record_of(none, b, index, view, TypeNo(t));
    match number {
        11 => !naming::names_ok(order, r, none, strings_in(b)),
        12 => !tails::tail_ok(order, r),
        13 => !refs::refs_ok(none, b, index, view, r),
        14 => is_endless(links(none, b, index, view, work), t),
        _ => is_misplaced(none, b, index, view, work, TypeNo(t)),
    }
}

// The same, with so many entries in the record whose info word stands at a place.
fn is_cut_broken(
    cut: &mut [u8; BYTE_LIMIT],
    len: usize,
    index: &[u32],
    work: &mut [u32; FULL_PLACES],
    n: u32,
    t: u32,
    number: u32,
    order: Order,
    at: Place,
    info: u32,
) -> bool {
    words::write(order, cut, at, info);
    is_broken(first_of(cut, len), index, work, n, t, number)
}

// The first entry, from 1, with which the copy breaks the rule, by halving; 0 where it breaks it without any. A function of its own: what a loop does is proved without the arrays written out.
fn halved(
    cut: &mut [u8; BYTE_LIMIT],
    len: usize,
    index: &[u32],
    work: &mut [u32; FULL_PLACES],
    n: u32,
    t: u32,
    number: u32,
    order: Order,
    at: Place,
    info: u32,
) -> u32 {
    let mut low: u32 = 0;
    let mut high = vlen_of(info);
    // A while: each turn halves what is left, so there is no count to go over.
    while low < high {
        let k = low + (high - low) / 2;
        if is_cut_broken(
            cut,
            len,
            index,
            work,
            n,
            t,
            number,
            order,
            at,
            cut_info(info, k),
        ) {
            high = k;
        } else {
            low = k + 1;
        }
    }
    high
}

// The same of a table and the record at a place, counted from 0: the table is copied. None where the rule is broken without any entry.
pub(crate) fn first_entry(
    blob: &[u8],
    index: &[u32],
    n: u32,
    t: u32,
    place: u32,
    number: u32,
) -> Option<u32> {
    let at = Place(std::num::wrapping_add_u32(place, 4));
    let order = words::order_of(blob);
    let info = words::read(order, blob, at);
    if entry_words(kind_of(info)) == 0 {
        return None;
    }
    let mut cut = [0u8; BYTE_LIMIT];
    let mut work = [0u32; FULL_PLACES];
    lay(&mut cut, 0, blob);
    let len = blob.len();
    halved(
        &mut cut, len, index, &mut work, n, t, number, order, at, info,
    )
    .checked_sub(1)
}
