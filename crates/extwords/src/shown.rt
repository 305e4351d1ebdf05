// Each record of a section in a line, by its part.
use crate::walks::{Met, next_of, start, word_behind};
use exts::Sort;
use header::name;
use lines::Out;
use paper::NameOff;
use std::num::wrapping_add_u32;
use texts::line;
use titles::put_type;

// How many records each part has.
#[derive(Clone, Copy)]
pub(crate) struct Counts {
    pub(crate) functions: u32,
    pub(crate) lines: u32,
    pub(crate) relocations: u32,
}

fn put_string(out: &mut Out, blob: &[u8], off: u32) {
    out.put_name(name(blob, NameOff(off)));
}

// "probe/hot 8: ", the section of the program and the place of the instruction in it.
fn put_where(out: &mut Out, blob: &[u8], group: u32, offset: u32) {
    put_string(out, blob, group);
    out.put_with(b" ", offset as u64);
    out.put(b": ");
}

// A line and a column are one word: ten bits are the column's.
fn put_line_record(out: &mut Out, blob: &[u8], s: &[u8], at: u32) {
    put_string(out, blob, word_behind(s, at, 4));
    let w = word_behind(s, at, 12);
    out.put_with(b" line ", (w / 1024) as u64);
    out.put_with(b" column ", (w % 1024) as u64);
    out.put(b": ");
    put_string(out, blob, word_behind(s, at, 8));
}

// What is fitted, by the kernel's numbers; one that it does not name stands as its number.
fn put_relocation_kind(out: &mut Out, kind: u32) {
    let kinds = b"byte offset of a field\n\
        byte size of a field\n\
        whether a field is there\n\
        whether a field is signed\n\
        left shift of a bit field\n\
        right shift of a bit field\n\
        number of a type here\n\
        number of a type there\n\
        whether a type is there\n\
        size of a type\n\
        whether an enum value is there\n\
        number of an enum value\n\
        whether a type is the same\n";
    out.put_with(b", kind ", kind as u64);
    let said = line(kinds, kind);
    if said.len() == 0 {
        return;
    }
    out.put(b" (");
    out.put(said);
    out.put(b")");
}

fn put_relocation(out: &mut Out, blob: &[u8], index: &[u32], s: &[u8], at: u32) {
    put_type(out, blob, index, word_behind(s, at, 4));
    out.put(b", access ");
    put_string(out, blob, word_behind(s, at, 8));
    put_relocation_kind(out, word_behind(s, at, 12));
}

fn put_words(out: &mut Out, blob: &[u8], index: &[u32], s: &[u8], part: Sort, at: u32) {
    match part {
        Sort::Function => put_type(out, blob, index, word_behind(s, at, 4)),
        Sort::Line => put_line_record(out, blob, s, at),
        Sort::Relocation => put_relocation(out, blob, index, s, at),
    }
}

// One record in a line.
fn put_record(
    out: &mut Out,
    blob: &[u8],
    index: &[u32],
    s: &[u8],
    part: Sort,
    group: u32,
    at: u32,
) {
    out.put(line(b"function \nline \nrelocation \n", part as u32));
    put_where(out, blob, group, word_behind(s, at, 0));
    put_words(out, blob, index, s, part, at);
    out.put(b"\n");
}

fn counted(c: Counts, part: Sort) -> Counts {
    match part {
        Sort::Function => Counts {
            functions: wrapping_add_u32(c.functions, 1),
            ..c
        },
        Sort::Line => Counts {
            lines: wrapping_add_u32(c.lines, 1),
            ..c
        },
        Sort::Relocation => Counts {
            relocations: wrapping_add_u32(c.relocations, 1),
            ..c
        },
    }
}

// How many records a section has. It has fewer things in it than bytes, and three parts.
pub(crate) fn count_records(s: &[u8]) -> Counts {
    let mut c = Counts {
        functions: 0,
        lines: 0,
        relocations: 0,
    };
    let mut w = start(s);
    for _ in 0..s.len() {
        let next = next_of(s, w);
        w = next.walk;
        match next.met {
            Met::End => return c,
            Met::Record(part) => c = counted(c, part),
            _ => {}
        }
    }
    c
}

// Every record of an accepted section, which has fewer things in it than bytes, and three parts.
pub(crate) fn put_records(out: &mut Out, blob: &[u8], index: &[u32], s: &[u8]) {
    let mut w = start(s);
    for _ in 0..s.len() {
        let next = next_of(s, w);
        w = next.walk;
        match next.met {
            Met::End => return,
            Met::Record(part) => put_record(out, blob, index, s, part, w.name, next.place),
            _ => {}
        }
    }
}
