// What a case lends and passes, what must be seen of it, and how both are read.
ghost use Rattle.std.specs.Prelude.{◌≡◌};
ghost use Rattle.paper.specs.declared.Order.TheVariants.{LowFirst};
ghost use Rattle.paper.specs.rules.Word.{word_at};
ghost use Rattle.replay.specs.Case.{head_of, seen_of, opening_of, same_seen};

// standard input
const STDIN_FILENO: i32 = 0;

use paper::{Order, Place};

// What a case may lend: places in an index or a work slice, bytes in a, b and the output, and the places that the bytes of b stand for.
pub(crate) const PLACES: usize = 20000;

pub(crate) const BYTES: usize = 280000;

pub(crate) const GIVEN: usize = 70000;

// The op, the places and bytes that are lent, the two numbers that are passed, and the lengths of a and b.
#[derive(Clone, Copy)]
pub(crate) struct Head {
    pub op: u32,
    pub index: u32,
    pub work: u32,
    pub output: u32,
    pub x: u32,
    pub y: u32,
    pub a: u32,
    pub b: u32,
}

// An answer's four numbers, and the sums of what was lent.
#[derive(Clone, Copy, PartialEq, Eq)]
pub(crate) struct Seen {
    pub number: u32,
    pub inner: u32,
    pub t: u32,
    pub p: u32,
    pub index: u32,
    pub work: u32,
    pub output: u32,
}

// Why a file does not begin with the number of its cases: its bytes are no vector file's, or too few.
#[derive(Clone, Copy)]
pub(crate) enum Unopened {
    Foreign,
    Cut,
}

fn word(s: &[u8], at: u32) -> u32
    ensures { result ≡ word_at LowFirst s.now at }
{
    words::read(Order::LowFirst, s, Place(at))
}

fn head_of(s: &[u8]) -> Head
    ensures { result ≡ head_of s.now }
{
    Head {
        op: word(s, 0),
        index: word(s, 4),
        work: word(s, 8),
        output: word(s, 12),
        x: word(s, 16),
        y: word(s, 20),
        a: word(s, 24),
        b: word(s, 28),
    }
}

fn seen_of(s: &[u8]) -> Seen
    ensures { result ≡ seen_of s.now }
{
    Seen {
        number: word(s, 0),
        inner: word(s, 4),
        t: word(s, 8),
        p: word(s, 12),
        index: word(s, 16),
        work: word(s, 20),
        output: word(s, 24),
    }
}

// The input holds enough bytes to fill the slice.
pub(crate) fn read_whole(s: &mut [u8]) -> bool {
    io::read_full(STDIN_FILENO, s) == s.len()
}

// Nothing where the input ends before or inside it.
pub(crate) fn read_head() -> Option<Head> {
    let mut s = [0u8; 32];
    if !read_whole(&mut s) {
        return None;
    }
    Some(head_of(&s))
}

pub(crate) fn read_seen() -> Option<Seen> {
    let mut s = [0u8; 28];
    if !read_whole(&mut s) {
        return None;
    }
    Some(seen_of(&s))
}

// The opening is "SCRV" and version 1, low byte first.
fn opening_of(s: &[u8]) -> Result<u32, Unopened>
    ensures { result ≡ opening_of s.now }
{
    if word(s, 0) != 1448231763 {
        return Err(Unopened::Foreign);
    }
    if word(s, 4) != 1 {
        return Err(Unopened::Foreign);
    }
    Ok(word(s, 8))
}

pub(crate) fn read_opening() -> Result<u32, Unopened> {
    let mut s = [0u8; 12];
    if !read_whole(&mut s) {
        return Err(Unopened::Cut);
    }
    opening_of(&s)
}

// Nothing is left of the input.
pub(crate) fn is_end() -> bool {
    let mut s = [0u8; 1];
    io::read_full(STDIN_FILENO, &mut s) == 0
}

// All seven numbers are equal.
pub(crate) fn same(a: Seen, b: Seen) -> bool
    ensures { result ≡ same_seen a b }
{
    a == b
}
