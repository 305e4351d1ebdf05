// The bytes of the record that a report names: its head, the words behind it that the rule is about, and a word on either side.
use crate::records::types_of;
use fields::{is_in_base, put_bare, put_next, told_place};
use kindrows::{DECL_TAG, FUNC, STRUCT, UNION};
use lines::Out;
use paper::{Order, TypeNo};
use rows::{info_of, kind_of, tail_words, third_of, vlen_of};
use views::{View, place_of, record_of};
use worded::{Look, put_head, put_tail};
use words::rest_from;

// How a record does not fit.
fn put_cut(out: &mut Out, end: usize, order: Order, r: &[u8]) {
    out.put_with(
        b"    the type section ends at byte ",
        told_place(out, end) as u64,
    );
    if r.len() < 12 {
        out.put_with(b", and of the head's 12 bytes there are ", r.len() as u64);
        out.put(b"\n");
        return;
    }
    let size = 12 + 4 * (tail_words(info_of(order, r)) as u64);
    out.put_with(b", and the record would have ", size);
    out.put(b" bytes\n");
}

// What stands below the record: how it is cut, nothing where its end is not known, the word behind it.
fn put_end(out: &mut Out, blob: &[u8], end: usize, r: &[u8], place: u32, number: u32) {
    match number {
        6 => put_cut(out, end, words::order_of(blob), r),
        7 => {}
        _ => {
            let size = 12 + 4 * (tail_words(info_of(words::order_of(blob), r)) as usize);
            put_next(out, blob, end, (place as usize) + size)
        }
    }
}

// The word before the record; none before the first of its file.
fn put_before(out: &mut Out, blob: &[u8], at: usize) {
    if at < 28 {
        return;
    }
    if told_place(out, at) < 28 {
        return;
    }
    put_bare(out, false, blob, at - 4);
}

// Three words of which the gate reads nothing: they are one record too many.
pub(crate) fn put_unread(out: &mut Out, blob: &[u8], place: u32) {
    let at = place as usize;
    let types = types_of(blob);
    put_before(out, blob, at);
    put_bare(out, true, types, at);
    put_bare(out, true, types, at + 4);
    put_bare(out, true, types, at + 8);
}

// The record at a place, for a report that names it.
pub(crate) fn put_marked(out: &mut Out, blob: &[u8], index: &[u32], place: u32, look: Look) {
    let at = place as usize;
    let types = types_of(blob);
    let r = rest_from(types, at);
    put_before(out, blob, at);
    put_head(out, blob, index, r, place, look);
    put_tail(out, blob, index, r, place, look);
    put_end(out, blob, types.len(), r, place, look.number);
}

// That a record is the base's, in whose file its places count.
fn put_holder(out: &mut Out, at: usize) {
    if is_in_base(out, at) {
        out.put(b" of the base");
        return;
    }
}

// The prototype of a function, whose parameters the rule is about.
fn put_prototype(out: &mut Out, blob: &[u8], index: &[u32], t: u32, look: Look) {
    let view = View {
        n: look.n,
        order: words::order_of(blob),
        before: 0,
    };
    let place = place_of(index, view, TypeNo(t)).0;
    out.put_with(b"    its prototype, type ", t as u64);
    put_holder(out, place as usize);
    out.put_with(b", at byte ", told_place(out, place as usize) as u64);
    out.put(b":\n");
    let r = record_of(&blob[..0], blob, index, view, TypeNo(t));
    put_head(out, blob, index, r, place, look);
    put_tail(out, blob, index, r, place, look);
}

// How many parts a tag can point at: members, or a function's parameters.
fn parts_of(blob: &[u8], index: &[u32], n: u32, t: u32) -> u32 {
    let order = words::order_of(blob);
    let none = &blob[..0];
    let view = View {
        n,
        order,
        before: 0,
    };
    let r = record_of(none, blob, index, view, TypeNo(t));
    let info = info_of(order, r);
    match kind_of(info) {
        STRUCT | UNION => vlen_of(info),
        FUNC => vlen_of(info_of(
            order,
            record_of(none, blob, index, view, TypeNo(third_of(order, r))),
        )),
        _ => 0,
    }
}

// What the rule of the layout rests on besides the record: a function's prototype, the parts of what a tag is on.
pub(crate) fn put_besides(out: &mut Out, blob: &[u8], index: &[u32], r: &[u8], look: Look) {
    let order = words::order_of(blob);
    if look.number != 15 {
        return;
    }
    let kind = kind_of(info_of(order, r));
    let t = third_of(order, r);
    if kind == FUNC {
        put_prototype(out, blob, index, t, look);
        return;
    }
    if kind != DECL_TAG {
        return;
    }
    out.put_with(b"    members or parameters of type ", t as u64);
    out.put_with(b": ", parts_of(blob, index, look.n, t) as u64);
    out.put(b"\n");
}
