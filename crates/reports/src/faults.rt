// Which bytes break the rule of a report, as far as one word or one entry does: the first where there are several.
ghost use Rattle.std.specs.Prelude.{◌≤◌};

use crate::firsts::{cut_info, first_entry};
use kindrows::{ARRAY, DECL_TAG, FUNC, FUNC_PROTO, INT, STRUCT, UNION};
use paper::{Order, Place, TypeNo};
use rows::{entry_words, kind_of, tail_words, third_of};
use spans::is_regular;
use views::{View, kind_at, place_of, record_of};
use worded::Look;

// So many words from a place of the record that stands at another.
fn within(number: u32, n: u32, place: u32, from: u32, words: u32) -> Look {
    let start = (place as usize) + (from as usize);
    Look {
        number,
        n,
        from: start,
        to: start + 4 * (words as usize),
    }
}

// No byte by itself.
pub(crate) fn nowhere(number: u32, n: u32) -> Look {
    Look {
        number,
        n,
        from: 0,
        to: 0,
    }
}

// How far behind the head's start so many entries end.
fn entries_end(info: u32, entries: u32) -> u32
    ensures { result ≤ 300000 }
{
    let words = tail_words(cut_info(info, entries));
    if 65536 < words {
        return 0;
    }
    12 + 4 * words
}

// An entry of the record at a place, counted from 0. Of the layout a member's type and offset break the rule, and the name of a
// parameter; of all else the whole entry.
fn entry_fault(number: u32, n: u32, place: u32, info: u32, entry: u32) -> Look {
    let kind = kind_of(info);
    let from = entries_end(info, entry);
    let second = from + 4;
    if number != 15 {
        return within(number, n, place, from, entry_words(kind));
    }
    match kind {
        STRUCT | UNION => within(number, n, place, second, 2),
        FUNC_PROTO => within(number, n, place, from, 1),
        _ => within(number, n, place, from, entry_words(kind)),
    }
}

// An array's index breaks the rule; where it does not, the element does.
fn is_index_wrong(blob: &[u8], index: &[u32], n: u32, r: &[u8], number: u32) -> bool {
    let order = words::order_of(blob);
    let view = View {
        n,
        order,
        before: 0,
    };
    let none = &blob[..0];
    let t = TypeNo(words::read(order, r, Place(16)));
    if number == 13 {
        return kind_at(none, blob, index, view, t) != INT;
    }
    number == 15 && !is_regular(order, record_of(none, blob, index, view, t))
}

// Where in a record the word stands that breaks the rule without any entry: name, third word, a word behind the head.
fn word_of(blob: &[u8], index: &[u32], n: u32, r: &[u8], number: u32) -> u32 {
    let kind = kind_of(rows::info_of(words::order_of(blob), r));
    if number == 11 {
        return 0;
    }
    if number == 12 {
        return 12;
    }
    if kind == ARRAY {
        if is_index_wrong(blob, index, n, r, number) {
            return 16;
        }
        return 12;
    }
    if kind == DECL_TAG && number == 15 {
        return 12;
    }
    8
}

// Of a parameter of type 0 that is not the last the one behind it tells: with it the rule is broken.
fn told_by(order: Order, r: &[u8], entry: u32, number: u32) -> u32 {
    if number != 12 {
        return entry;
    }
    if entry == 0 || 65535 < entry {
        return entry;
    }
    let type_before = 8 * entry + 8;
    if words::read(order, r, Place(type_before)) == 0 {
        return entry - 1;
    }
    entry
}

// The fault of a function is in its prototype, whose parameter has no name.
fn prototype_fault(blob: &[u8], index: &[u32], n: u32, t: u32, proto: u32) -> Look {
    let order = words::order_of(blob);
    let place = place_of(
        index,
        View {
            n,
            order,
            before: 0,
        },
        TypeNo(proto),
    )
    .0;
    let info = words::blob_word(blob, Place(std::num::wrapping_add_u32(place, 4)));
    match first_entry(blob, index, n, t, place, 15) {
        Some(entry) => entry_fault(15, n, place, info, entry),
        None => nowhere(15, n),
    }
}

// The bytes that break the rule of a report from 11 to 15, of a type whose record `r` stands at a place.
pub(crate) fn fault_of(
    blob: &[u8],
    index: &[u32],
    n: u32,
    t: u32,
    r: &[u8],
    place: u32,
    number: u32,
) -> Look {
    let order = words::order_of(blob);
    let info = rows::info_of(order, r);
    if number == 10 {
        return nowhere(number, n); // its words tell by themselves
    }
    if number == 15 && kind_of(info) == FUNC {
        return prototype_fault(blob, index, n, t, third_of(order, r));
    }
    match first_entry(blob, index, n, t, place, number) {
        Some(entry) => entry_fault(number, n, place, info, told_by(order, r, entry, number)),
        None => within(number, n, place, word_of(blob, index, n, r, number), 1),
    }
}
