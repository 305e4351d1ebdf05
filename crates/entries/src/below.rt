// The lines of members. Below a member without a name stand those of the struct or union that it holds, since C reads them
// as the outer one's: their bits count from the start of the record that is shown.
use bases::{base_of, fourth_of, long_entry, record_of};
use kindrows::{INT, STRUCT, UNION};
use lines::Out;
use paper::{Place, Sized, TypeNo};
use rows::{flag_of, info_of, kind_of, name_of, vlen_of};
use titles::{put_based, put_entry_name, put_many};

// How many lines members without a name may still get in this call, and whether some were left out.
#[derive(Clone, Copy)]
pub struct Listed {
    pub left: u32,
    pub is_cut: bool, // a flag: what is left out ends nothing, and lines go on behind it
}

// How deep members without a name are followed, and how many lines one gets below it: a small table can nest without measure.
pub const LEVELS: usize = 8;

pub const LINES: u32 = 256;

// Which bits of a struct or union a member takes: the first, and how many.
#[derive(Clone, Copy)]
pub struct Span {
    pub from: u64,
    pub width: u64,
}

// The bits of a type's whole size; an accepted member has one.
pub fn whole_bits(s: Sized) -> u64 {
    match s {
        Sized::Exact(n) => 8 * (n as u64),
        _ => 0,
    }
}

// "With kind_flag 0 an INT base member spans its width from bit offset + INT offset; other bases span 8 times size".
fn plain_span(blob: &[u8], index: &[u32], t: u32, offset: u32) -> Span {
    let order = words::order_of(blob);
    let base = record_of(blob, index, base_of(blob, index, t));
    if kind_of(info_of(order, base)) == INT {
        let w = fourth_of(order, base);
        return Span {
            from: (offset as u64) + ((w / 65536 % 256) as u64),
            width: (w % 256) as u64,
        };
    }
    Span {
        from: offset as u64,
        width: whole_bits(sizes::size(blob, index, TypeNo(t))),
    }
}

// "With kind_flag 1 the top 8 bits of the offset word are the field width w, the low 24 the bit offset"; w = 0: 8 times size.
fn field_span(blob: &[u8], index: &[u32], t: u32, word: u32) -> Span {
    let from = (word % 16777216) as u64;
    let w = word / 16777216;
    if w == 0 {
        return Span {
            from,
            width: whole_bits(sizes::size(blob, index, TypeNo(t))),
        };
    }
    Span {
        from,
        width: w as u64,
    }
}

fn span_of(blob: &[u8], index: &[u32], flag: u32, t: u32, word: u32) -> Span {
    if flag == 0 {
        return plain_span(blob, index, t, word);
    }
    field_span(blob, index, t, word)
}

// A sum that stops at the largest number; the bits of an accepted table stay far below it.
pub fn plus(a: u64, b: u64) -> u64 {
    a.saturating_add(b)
}

// The bits of a member of a record that begins at a bit of the record that is shown.
fn bits_of(blob: &[u8], index: &[u32], r: &[u8], i: u32, start: u64) -> Span {
    let order = words::order_of(blob);
    let e = long_entry(r, i);
    let t = words::read(order, e, Place(4));
    let own = span_of(
        blob,
        index,
        flag_of(info_of(order, r)),
        t,
        words::read(order, e, Place(8)),
    );
    Span {
        from: plus(start, own.from),
        width: own.width,
    }
}

// The struct or union that a member without a name holds, where there is one.
fn held_by(blob: &[u8], index: &[u32], e: &[u8]) -> Option<u32> {
    let order = words::order_of(blob);
    let name = name_of(order, e);
    if name.0 != 0 {
        return None;
    }
    let t = base_of(blob, index, words::read(order, e, Place(4)));
    if t == 0 {
        return None;
    }
    match kind_of(info_of(order, record_of(blob, index, t))) {
        STRUCT | UNION => Some(t),
        _ => None,
    }
}

pub fn put_indent(out: &mut Out, depth: usize) {
    for _ in 0..depth {
        out.put(b"    ");
    }
}

// What stands behind a member's name: its type and its bits.
pub fn put_taken(out: &mut Out, blob: &[u8], index: &[u32], t: u32, bits: Span) {
    out.put(b": ");
    put_based(out, blob, index, t);
    out.put(b", ");
    put_many(out, bits.width, b" bit", b" bits");
    out.put_with(b" from bit ", bits.from);
}

// A member's line: name, type and bits, so many levels below the record that is shown.
fn put_line(out: &mut Out, blob: &[u8], index: &[u32], e: &[u8], bits: Span, depth: usize) {
    out.put_start();
    put_indent(out, depth);
    put_entry_name(out, blob, e);
    let t = words::read(words::order_of(blob), e, Place(4));
    put_taken(out, blob, index, t, bits);
    out.put(b"\n");
}

// Where lines are left out.
pub fn put_more(out: &mut Out, depth: usize) {
    out.put_start();
    put_indent(out, depth);
    out.put(b"    ...\n");
}

// The members of a struct or union that begins at a bit of the record that is shown, and of those that members without a name
// hold, each right below its member. For each that is open: its number, its next member and where it begins.
fn put_below(out: &mut Out, l: Listed, blob: &[u8], index: &[u32], t: u32, start: u64) -> Listed {
    let mut types = [t; LEVELS];
    let mut nexts = [0u32; LEVELS];
    let mut starts = [start; LEVELS];
    let mut depth: usize = 1;
    let most = LINES.min(l.left);
    let mut left = most;
    let mut is_cut = l.is_cut;
    // A while: what is open grows and shrinks as it is shown, so there is no count to go over.
    while 0 < depth {
        let d = depth - 1;
        let r = record_of(blob, index, types[d]);
        let i = nexts[d];
        if vlen_of(info_of(words::order_of(blob), r)) <= i {
            depth = d;
        } else if left == 0 {
            put_more(out, depth);
            is_cut = true;
            depth = 0;
        } else {
            left -= 1;
            nexts[d] = i + 1;
            let e = long_entry(r, i);
            let bits = bits_of(blob, index, r, i, starts[d]);
            let from = bits.from;
            put_line(out, blob, index, e, bits, depth);
            if let Some(held) = held_by(blob, index, e) {
                if depth < LEVELS {
                    types[depth] = held;
                    nexts[depth] = 0;
                    starts[depth] = from;
                    depth += 1;
                } else {
                    put_more(out, LEVELS + 1);
                    is_cut = true;
                }
            }
        }
    }
    Listed {
        left: l.left.saturating_sub(most.saturating_sub(left)),
        is_cut,
    }
}

// A member of the record that is shown, and what stands below it where it has no name.
pub(crate) fn put_member(
    out: &mut Out,
    l: Listed,
    blob: &[u8],
    index: &[u32],
    r: &[u8],
    i: u32,
) -> Listed {
    let e = long_entry(r, i);
    let bits = bits_of(blob, index, r, i, 0);
    let from = bits.from;
    put_line(out, blob, index, e, bits, 0);
    match held_by(blob, index, e) {
        Some(held) => put_below(out, l, blob, index, held, from),
        None => l,
    }
}
