// The line of strings is written: the byte order, then each string, bare where it is an identifier, else between quotes.
use crate::names::string_end;
use crate::pens::{Pen, put};
use paper::Order;
use quotes::{cut_text, name_text};

// The longest identifier, and as many bytes of a longer string as are put at a time.
const SOME: usize = 127;

const SPACE: usize = 4 * SOME + 2;

fn put_short(out: &mut [u8], p: Pen, s: &[u8]) -> Result<Pen, usize> {
    let mut space = [0u8; SPACE];
    let n = name_text(s, &mut space);
    put(out, p, &space[..n])
}

// Some bytes of a string between quotes, without the quotes.
fn put_some(out: &mut [u8], p: Pen, s: &[u8]) -> Result<Pen, usize> {
    let mut space = [0u8; SPACE];
    let n = cut_text(s, &mut space);
    if n < 2 {
        return Ok(p);
    }
    let end = n - 1;
    put(out, p, &space[1..end])
}

// A string that is longer than any identifier.
fn put_long(out: &mut [u8], p: Pen, s: &[u8]) -> Result<Pen, usize> {
    let mut p = put(out, p, b"\"")?;
    for part in s.chunks(SOME) {
        p = put_some(out, p, part)?;
    }
    put(out, p, b"\"")
}

fn put_string(out: &mut [u8], p: Pen, s: &[u8]) -> Result<Pen, usize> {
    let p = put(out, p, b" ")?;
    if s.len() <= SOME {
        return put_short(out, p, s);
    }
    put_long(out, p, s)
}

fn put_order(out: &mut [u8], p: Pen, order: Order) -> Result<Pen, usize> {
    match order {
        Order::LowFirst => put(out, p, b"strings little-endian"),
        Order::HighFirst => put(out, p, b"strings big-endian"),
    }
}

// All strings of a section, each with the zero byte that ends it.
pub(crate) fn put_strings(
    out: &mut [u8],
    p: Pen,
    order: Order,
    strings: &[u8],
) -> Result<Pen, usize> {
    let mut p = put_order(out, p, order)?;
    let mut i = 0;
    // A while: each string says where the next begins, so there is no count to go over.
    while i < strings.len() {
        let end = string_end(strings, i);
        p = put_string(out, p, &strings[i..end])?;
        i = end + 1;
    }
    put(out, p, b"\n")
}
