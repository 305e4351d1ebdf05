// Words of 32 bits at a place of a slice, in a byte order; the order of a blob; the bytes from a place on; a run of bytes laid over others.
// Total: a word that is not wholly inside reads as 0 and is not written, and a run that does not fit is not laid.
#![tactic(auto)]

ghost use Rattle.std.specs.Prelude.{◌≡◌, ◌+◌, ◌%◌, ◌≤◌, length};
ghost use Rattle.paper.specs.declared.Order.TheVariants.{HighFirst, LowFirst};
ghost use Rattle.paper.specs.rules.Header.{order_of};
ghost use Rattle.paper.specs.rules.Word.{first_word, put_word, word_at, word_bytes, word_of};
ghost use Rattle.paper.specs.terms.Put.{laid, put};
ghost use Rattle.words.specs.Rest.{RestOf};

use paper::{Order, Place};

// The byte order of a blob, by its first two bytes.
pub fn order_of(b: &[u8]) -> Order
    ensures { result ≡ order_of b.now }
{
    if b.len() < 2 {
        return Order::LowFirst;
    }
    if b[0] != 0xeb {
        return Order::LowFirst;
    }
    if b[1] != 0x9f {
        return Order::LowFirst;
    }
    Order::HighFirst
}

// The word of four bytes, low byte first.
fn compose(a: u8, b: u8, c: u8, d: u8) -> u32
    ensures { result ≡ word_of LowFirst a b c d }
{
    (a as u32) + (b as u32) * 256 + (c as u32) * 65536 + (d as u32) * 16777216
}

// The word at a place. The bytes are read in either arm: a branch that is always taken costs nothing, a word that is turned round by
// choice would wait for the choice.
pub fn read(order: Order, b: &[u8], at: Place) -> u32
    ensures { result ≡ word_at order b.now at.0 }
{
    let p = at.0 as usize;
    if b.len() < p + 4 {
        return 0;
    }
    match order {
        Order::LowFirst => compose(b[p], b[p + 1], b[p + 2], b[p + 3]),
        Order::HighFirst => compose(b[p + 3], b[p + 2], b[p + 1], b[p]),
    }
}

// The word at a place of a blob, in the order that its opening says.
pub fn blob_word(b: &[u8], at: Place) -> u32
    ensures { result ≡ word_at (order_of b.now) b.now at.0 }
{
    read(order_of(b), b, at)
}

// The bytes from a place on; none where the place is past the end.
pub fn rest_from(s: &[u8], at: usize) -> &[u8]
    ensures { RestOf result s.entry at }
{
    if s.len() < at {
        return &s[..0];
    }
    &s[at..]
}

// A word with its four bytes turned round.
fn turn(w: u32) -> u32
    ensures { result ≡ first_word HighFirst (word_bytes LowFirst w) }
{
    (w % 256) * 16777216 + (w / 256 % 256) * 65536 + (w / 65536 % 256) * 256 + w / 16777216
}

// The word whose bytes, low byte first, are those of a word in an order.
fn ordered(order: Order, w: u32) -> u32
    ensures { result ≡ first_word order (word_bytes LowFirst w) }
{
    match order {
        Order::LowFirst => w,
        Order::HighFirst => turn(w),
    }
}

// The word is put at a place.
pub fn write(order: Order, b: &mut [u8], at: Place, w: u32)
    ensures { b.new ≡ put_word order b.old at.0 w }
{
    let p = at.0 as usize;
    if b.len() < p + 4 {
        return;
    }
    let v = ordered(order, w);
    b[p] = (v % 256) as u8;
    b[p + 1] = (v / 256 % 256) as u8;
    b[p + 2] = (v / 65536 % 256) as u8;
    b[p + 3] = (v / 16777216 % 256) as u8;
}

// A loop and no `copy_from_slice`: that is a call of `memmove`, and the archive for C needs `memset` alone (include/scrieve.h).
fn copy(out: &mut [u8], at: usize, s: &[u8])
    requires { at + length s.now ≤ length out.old }
    ensures { out.new ≡ put out.old at s.now }
{
    for (i, b) in s.iter().enumerate() {
        out[at + i] = *b;
    }
}

// The bytes are laid over others, from a place on. Nothing changes where they do not fit behind it.
pub fn lay(out: &mut [u8], at: usize, s: &[u8])
    ensures { out.new ≡ laid out.old at s.now }
{
    if out.len() < at {
        return;
    }
    if out.len() - at < s.len() {
        return;
    }
    copy(out, at, s)
}
