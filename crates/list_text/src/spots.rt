// Where a place of a text stands, as people count.
use std::num::wrapping_add_u32;
use texts::first_of;

// Lines, and the bytes of a line, are counted from 1.
#[derive(Clone, Copy)]
pub struct Spot {
    pub line: u32,
    pub byte: u32,
}

// Behind one byte more.
fn behind(s: Spot, c: u8) -> Spot {
    if c == b'\n' {
        return Spot {
            line: wrapping_add_u32(s.line, 1),
            byte: 1,
        };
    }
    Spot {
        line: s.line,
        byte: wrapping_add_u32(s.byte, 1),
    }
}

// The line that a place stands in, and which byte of it.
pub fn spot_of(text: &[u8], at: usize) -> Spot {
    let mut s = Spot { line: 1, byte: 1 };
    for c in first_of(text, at) {
        s = behind(s, *c);
    }
    s
}
