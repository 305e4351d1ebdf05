// The lines of a record: each member, and right below it what it holds, with bits counted from the start of the record that is shown.
use crate::contents::{Part, count_of, held_by, is_array, next_start, part_of};
use crate::numbers::put_value;
use bases::{long_entry, record_of};
use entries::{LEVELS, LINES, Listed, Span, plus, put_indent, put_more, put_taken};
use lines::Out;
use texts::first_of;
use titles::put_entry_name;
use values::value_of;
use words::rest_from;

// As many bytes as a line shows: more than any number and any pointer lies in.
const SHOWN: usize = 24;

// What a line begins with: a member's name or an element's number, so many levels below the record that is shown.
fn put_label(out: &mut Out, blob: &[u8], index: &[u32], held: u32, i: u32, depth: usize) {
    put_indent(out, depth);
    if is_array(blob, index, held) {
        out.put_with(b"    [", i as u64);
        out.put(b"]");
        return;
    }
    put_entry_name(out, blob, long_entry(record_of(blob, index, held), i));
}

// The bytes that some bits lie in.
fn bytes_in(s: &[u8], from: u64, width: u64) -> &[u8] {
    let first = from / 8;
    let n = plus(from % 8 + 7, width) / 8;
    first_of(rest_from(s, first as usize), n as usize)
}

// Bytes behind a colon, and how many there are where not all stand there; nothing where there are none.
fn put_bytes(out: &mut Out, s: &[u8]) {
    if s.len() == 0 {
        return;
    }
    out.put(b":");
    out.put_hex(first_of(s, SHOWN));
    if s.len() <= SHOWN {
        return;
    }
    out.put_with(b" ... (", s.len() as u64);
    out.put(b" bytes)");
}

// A member's or an element's line: name or number, type, bits, bytes and value. What holds it begins at a bit of the record.
fn put_part(out: &mut Out, blob: &[u8], index: &[u32], s: &[u8], part: Part, start: u64) {
    let t = part.t;
    let width = part.bits;
    let from = plus(start, part.from);
    let span = part.span;
    put_taken(out, blob, index, t, Span { from, width });
    put_bytes(out, bytes_in(s, from, width));
    let byte = start / 8;
    let v = value_of(span, rest_from(s, byte as usize));
    put_value(out, blob, index, t, v);
    out.put(b"\n");
}

// What a line is of: a struct, a union or an array, if it is of one, and the bit where that begins.
#[derive(Clone, Copy)]
struct Step {
    inner: Option<u32>,
    from: u64,
}

// The line of what lies at a number in a struct, a union or an array that begins at a bit of the record.
fn put_next(
    out: &mut Out,
    blob: &[u8],
    index: &[u32],
    n: u32,
    s: &[u8],
    held: u32,
    i: u32,
    start: u64,
    depth: usize,
) -> Step {
    let part = part_of(blob, index, n, held, i);
    let inner = held_by(blob, index, part.t);
    let from = plus(start, part.from);
    put_label(out, blob, index, held, i, depth);
    put_part(out, blob, index, s, part, start);
    Step { inner, from }
}

// What lies in a struct, a union or an array that begins at a bit of the record, and in what that holds, each right below it. For
// each that is open: its number, what is next in it, and where that begins.
fn put_below(
    out: &mut Out,
    l: Listed,
    blob: &[u8],
    index: &[u32],
    n: u32,
    s: &[u8],
    held: u32,
    start: u64,
) -> Listed {
    let mut types = [held; LEVELS];
    let mut nexts = [0u32; LEVELS];
    let mut starts = [start; LEVELS];
    let mut depth: usize = 1;
    let most = LINES.min(l.left);
    let mut left = most;
    let mut is_cut = l.is_cut;
    // A while: what is open grows and shrinks as it is shown, so there is no count to go over.
    while 0 < depth {
        let d = depth - 1;
        let t = types[d];
        let i = nexts[d];
        let at = starts[d];
        if count_of(blob, index, t) <= i {
            depth = d;
        } else if left == 0 {
            put_more(out, depth);
            is_cut = true;
            depth = 0;
        } else {
            left -= 1;
            nexts[d] = i + 1;
            starts[d] = next_start(blob, index, t, at);
            let step = put_next(out, blob, index, n, s, t, i, at, depth);
            if let Some(inner) = step.inner {
                if depth < LEVELS {
                    types[depth] = inner;
                    nexts[depth] = 0;
                    starts[depth] = step.from;
                    depth += 1;
                } else {
                    put_more(out, LEVELS + 1);
                    is_cut = true;
                }
            }
        }
    }
    Listed {
        left: l.left.saturating_sub(most.saturating_sub(left)),
        is_cut,
    }
}

// A member of the record, and what stands below it.
fn put_member(
    out: &mut Out,
    l: Listed,
    blob: &[u8],
    index: &[u32],
    n: u32,
    s: &[u8],
    t: u32,
    i: u32,
) -> Listed {
    let step = put_next(out, blob, index, n, s, t, i, 0, 0);
    match step.inner {
        Some(inner) => put_below(out, l, blob, index, n, s, inner, step.from),
        None => l,
    }
}

// Every member of a struct or union of a table of so many types, as a record's bytes have it.
pub fn put_members(
    out: &mut Out,
    l: Listed,
    blob: &[u8],
    index: &[u32],
    n: u32,
    s: &[u8],
    t: u32,
) -> Listed {
    let count = count_of(blob, index, t);
    let mut l = l;
    for i in 0..count {
        l = put_member(out, l, blob, index, n, s, t, i);
    }
    l
}
