// What lies in a record: the members of a struct or union and the elements of an array, each with its type, its bits and how they are
// read. Of a table that is accepted.
use bases::{base_of, fourth_of, long_entry, record_of};
use entries::{plus, whole_bits};
use kindrows::{ARRAY, STRUCT, UNION};
use members::{numbered, span_of};
use paper::{Place, Sized, TypeNo};
use rows::{flag_of, info_of, kind_of, vlen_of};
use spans::member_span;
use values::MemberSpan;
use views::View;

// A member or an element: its type, its bits, counted from the start of what holds it, and how they are read there.
#[derive(Clone, Copy)]
pub(crate) struct Part {
    pub t: u32,
    pub from: u64,
    pub bits: u64,
    pub span: MemberSpan,
}

// With the bits that it takes; a member of an accepted table takes some.
fn lying(t: u32, lies: Option<(u64, u64)>, span: MemberSpan) -> Part {
    match lies {
        None => Part {
            t,
            from: 0,
            bits: 0,
            span,
        },
        Some((from, bits)) => Part {
            t,
            from,
            bits,
            span,
        },
    }
}

// A member of a struct or union, in a table of so many types.
fn member_part(blob: &[u8], index: &[u32], n: u32, held: u32, i: u32) -> Part {
    let order = words::order_of(blob);
    let r = record_of(blob, index, held);
    let e = long_entry(r, i);
    let t = words::read(order, e, Place(4));
    let lies = member_span(
        &blob[..0],
        blob,
        index,
        View {
            n,
            order,
            before: 0,
        },
        flag_of(info_of(order, r)),
        TypeNo(t),
        words::read(order, e, Place(8)),
    );
    lying(t, lies, span_of(blob, index, TypeNo(held), i))
}

// How many bytes a type has; an accepted element has a size.
fn bytes_of(s: Sized) -> u32 {
    match s {
        Sized::Exact(n) => n,
        _ => 0,
    }
}

// An element of an array: the same for each, counted from its own start.
fn element_part(blob: &[u8], index: &[u32], n: u32, held: u32) -> Part {
    let order = words::order_of(blob);
    let t = fourth_of(order, record_of(blob, index, held));
    let size = bytes_of(sizes::size(blob, index, TypeNo(t)));
    let none = &blob[..0];
    let view = View {
        n,
        order,
        before: 0,
    };
    let lies = member_span(none, blob, index, view, 0, TypeNo(t), 0);
    let span = numbered(none, blob, index, view, 0, size, TypeNo(t), 0);
    lying(t, lies, span)
}

pub(crate) fn is_array(blob: &[u8], index: &[u32], held: u32) -> bool {
    kind_of(info_of(words::order_of(blob), record_of(blob, index, held))) == ARRAY
}

// What lies at a number in a struct, a union or an array.
pub(crate) fn part_of(blob: &[u8], index: &[u32], n: u32, held: u32, i: u32) -> Part {
    if is_array(blob, index, held) {
        return element_part(blob, index, n, held);
    }
    member_part(blob, index, n, held, i)
}

// How many lie in it.
pub(crate) fn count_of(blob: &[u8], index: &[u32], held: u32) -> u32 {
    let order = words::order_of(blob);
    let r = record_of(blob, index, held);
    if is_array(blob, index, held) {
        return words::read(order, r, Place(20));
    }
    vlen_of(info_of(order, r))
}

// Where the next element of an array begins, behind one that begins at a bit. A struct or union stays where it is: its members have offsets.
pub(crate) fn next_start(blob: &[u8], index: &[u32], held: u32, start: u64) -> u64 {
    if !is_array(blob, index, held) {
        return start;
    }
    let t = fourth_of(words::order_of(blob), record_of(blob, index, held));
    plus(start, whole_bits(sizes::size(blob, index, TypeNo(t))))
}

// The struct, union or array that a type is by value, where it is one.
pub(crate) fn held_by(blob: &[u8], index: &[u32], t: u32) -> Option<u32> {
    let base = base_of(blob, index, t);
    if base == 0 {
        return None;
    }
    match kind_of(info_of(words::order_of(blob), record_of(blob, index, base))) {
        ARRAY | STRUCT | UNION => Some(base),
        _ => None,
    }
}
