// A line of bytes: a mark where they are meant, the place of the first, the bytes.
use lines::Out;
use texts::{first_of, line};
use words::rest_from;

// How many of five columns a place leaves blank.
fn blanks(at: usize) -> u32 {
    if at < 10 {
        return 4;
    }
    if at < 100 {
        return 3;
    }
    if at < 1000 {
        return 2;
    }
    if at < 10000 {
        return 1;
    }
    0
}

// A byte of a table behind a base, as its place in the table that holds both: a record of the base stands there as in the base's own file.
pub fn is_in_base(out: &Out, at: usize) -> bool {
    at < 24 + out.records as usize
}

// The place that is told of such a byte: that in its own file.
pub fn told_place(out: &Out, at: usize) -> usize {
    let records = out.records as usize;
    if at < 24 + records {
        return at;
    }
    at - records
}

fn put_mark(out: &mut Out, is_meant: bool) {
    if is_meant {
        out.put(b"  > ");
        return;
    }
    out.put(b"    ");
}

// What a line of bytes begins with: the mark and the place.
fn put_place(out: &mut Out, is_meant: bool, at: usize) {
    let place = told_place(out, at);
    put_mark(out, is_meant);
    out.put(line(b"\n \n  \n   \n    \n", blanks(place)));
    out.put_wide(place as u64);
    out.put(b" ");
}

// So many bytes from a place on, as far as they are there.
pub fn put_bytes(out: &mut Out, is_meant: bool, s: &[u8], at: usize, n: usize) {
    put_place(out, is_meant, at);
    out.put_hex(first_of(rest_from(s, at), n));
}

// A word of which nothing is said; no line where no byte of it is there.
pub fn put_bare(out: &mut Out, is_meant: bool, s: &[u8], at: usize) {
    if s.len() <= at {
        return;
    }
    put_bytes(out, is_meant, s, at, 4);
    out.put(b"\n");
}

// The word at a place behind a record of a type section that ends there or further on, of which nothing is said. What the file has behind
// its records is its own strings: of a table that holds both, those behind the base's.
pub fn put_next(out: &mut Out, s: &[u8], end: usize, at: usize) {
    if at < end {
        put_bare(out, false, s, at);
        return;
    }
    let own = rest_from(rest_from(s, at), out.strings as usize);
    if own.len() == 0 {
        return;
    }
    put_place(out, false, at);
    out.put_hex(first_of(own, 4));
    out.put(b"\n");
}
