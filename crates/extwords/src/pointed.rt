// The bytes of a section that a refusal is about.
use crate::walks::{Met, Step, next_of, start, word, word_behind};
use exts::Sort;
use fields::put_bytes;
use kindrows::FUNC;
use lines::Out;
use paper::{Place, TypeNo};
use std::num::wrapping_add_u32;
use texts::{first_of, line};
use views::{View, kind_at};

// What a report from 40 on means.
pub(crate) fn put_meaning(out: &mut Out, number: u32) {
    let meanings = b"the section's table is refused\n\
        the section has under 24 bytes or over 262144\n\
        the section's first four bytes are not the table's\n\
        the section's header length is neither 24 nor 32, or leads past its end\n\
        the section's parts do not fill it one after the other, or a length is not a multiple of 4\n\
        a part of the section has a record size that is too small, or not a multiple of 4\n\
        a group of the section does not fit its part, or has no records\n\
        a name of the section lies outside the table's strings\n\
        a record of the section refers to a type that is not there, or that is no function\n";
    if number < 40 {
        return;
    }
    out.put(line(meanings, number - 40));
}

// A word in a line: its bytes and what it is.
fn put_word(out: &mut Out, is_meant: bool, s: &[u8], at: u32, what: &[u8]) {
    if s.len() <= at as usize {
        return;
    }
    put_bytes(out, is_meant, s, at as usize, 4);
    out.put(b"  ");
    out.put(what);
    out.put_with(b" ", word(s, at) as u64);
    out.put(b"\n");
}

// A type's kind in a table of n types; 0 of void and of a number above n.
fn kind_in(blob: &[u8], index: &[u32], n: u32, t: u32) -> u32 {
    let order = words::order_of(blob);
    kind_at(
        &blob[..0],
        blob,
        index,
        View {
            n,
            before: 0,
            order,
        },
        TypeNo(t),
    )
}

// A word of a record breaks 47 or 48: which words are names and which types goes by the part.
fn is_wrong(blob: &[u8], index: &[u32], n: u32, part: Sort, k: u32, w: u32) -> bool {
    let strings = words::blob_word(blob, Place(20));
    match (part, k) {
        (Sort::Function, 4) => kind_in(blob, index, n, w) != FUNC,
        (Sort::Relocation, 4) => n < w,
        (Sort::Line, 4) | (Sort::Line | Sort::Relocation, 8) => strings <= w,
        _ => false,
    }
}

fn is_wrong_record(blob: &[u8], index: &[u32], n: u32, s: &[u8], part: Sort, at: u32) -> bool {
    if is_wrong(blob, index, n, part, 4, word_behind(s, at, 4)) {
        return true;
    }
    is_wrong(blob, index, n, part, 8, word_behind(s, at, 8))
}

// What the walk has met is at fault.
fn is_fault(blob: &[u8], index: &[u32], n: u32, s: &[u8], st: Step) -> bool {
    match st.met {
        Met::WrongSize => true,
        Met::WrongGroup => true,
        Met::Group => words::blob_word(blob, Place(20)) <= st.walk.name,
        Met::Record(part) => is_wrong_record(blob, index, n, s, part, st.place),
        Met::Part => false,
        Met::End => true,
    }
}

// The first thing of a section that is at fault; the end where none is. It has fewer things in it than bytes, and three parts.
fn first_fault(blob: &[u8], index: &[u32], n: u32, s: &[u8]) -> Step {
    let mut st = Step {
        met: Met::End,
        place: 0,
        walk: start(s),
    };
    for _ in 0..s.len() {
        st = next_of(s, st.walk);
        if is_fault(blob, index, n, s, st) {
            return st;
        }
    }
    st
}

// A word of a record, by its part; nothing where its sort has none.
fn put_record_word(out: &mut Out, is_meant: bool, s: &[u8], part: Sort, at: u32, k: u32) {
    let whats = b"\
        instruction offset\ntype\n\n\n\
        instruction offset\nfile name offset\nline text offset\nline and column\n\
        instruction offset\ntype\naccess name offset\nkind\n";
    let what = line(whats, part as u32 % 4 * 4 + k / 4 % 4);
    if what.len() == 0 {
        return;
    }
    put_word(out, is_meant, s, wrapping_add_u32(at, k), what);
}

fn put_record(out: &mut Out, blob: &[u8], index: &[u32], n: u32, s: &[u8], part: Sort, at: u32) {
    let second = is_wrong(blob, index, n, part, 4, word_behind(s, at, 4));
    let third = is_wrong(blob, index, n, part, 8, word_behind(s, at, 8));
    put_record_word(out, false, s, part, at, 0);
    put_record_word(out, second, s, part, at, 4);
    put_record_word(out, third, s, part, at, 8);
    put_record_word(out, false, s, part, at, 12);
}

fn put_group(out: &mut Out, is_named: bool, s: &[u8], at: u32) {
    put_word(out, is_named, s, at, b"group: name offset");
    put_word(
        out,
        !is_named,
        s,
        wrapping_add_u32(at, 4),
        b"group: records",
    );
}

// Where it is, "at byte P".
pub(crate) fn put_place(out: &mut Out, at: u32) {
    out.put_with(b", at byte ", at as u64);
    out.put(b"\n");
}

// The first part, group or record at fault: 45 to 48.
fn put_thing(out: &mut Out, blob: &[u8], index: &[u32], n: u32, s: &[u8]) {
    let st = first_fault(blob, index, n, s);
    let at = st.place;
    put_place(out, at);
    match st.met {
        Met::WrongSize => put_word(out, true, s, at, b"record size"),
        Met::WrongGroup => put_group(out, false, s, at),
        Met::Group => put_group(out, true, s, at),
        Met::Record(part) => put_record(out, blob, index, n, s, part, at),
        Met::Part => {}
        Met::End => {}
    }
}

// The header's words from the parts' on.
fn put_parts(out: &mut Out, s: &[u8]) {
    put_word(out, false, s, 8, b"functions: offset");
    put_word(out, false, s, 12, b"functions: length");
    put_word(out, false, s, 16, b"lines: offset");
    put_word(out, false, s, 20, b"lines: length");
    if word(s, 4) < 32 {
        return;
    }
    put_word(out, false, s, 24, b"relocations: offset");
    put_word(out, false, s, 28, b"relocations: length");
}

fn put_length(out: &mut Out, s: &[u8]) {
    out.put_with(b"    the section has ", s.len() as u64);
    out.put(b" bytes\n");
}

// The bytes that a report from 41 on is about.
pub(crate) fn put_about(out: &mut Out, blob: &[u8], index: &[u32], n: u32, s: &[u8], number: u32) {
    if 45 <= number {
        put_thing(out, blob, index, n, s);
        return;
    }
    out.put(b"\n");
    match number {
        42 => {
            put_bytes(out, true, s, 0, 4);
            out.put(b"  the table begins");
            out.put_hex(first_of(blob, 4));
            out.put(b"\n")
        }
        43 => {
            put_word(out, true, s, 4, b"header length");
            put_length(out, s)
        }
        44 => {
            put_word(out, false, s, 4, b"header length");
            put_parts(out, s);
            put_length(out, s)
        }
        _ => put_length(out, s),
    }
}
