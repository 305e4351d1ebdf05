// What stands between quotes is read: a backslash takes the quote, the backslash or the two digits behind \x that follow it.
ghost use Rattle.std.specs.Prelude.{◌<◌, ◌≤◌, IfOk, IfSome, length};

use crate::takes::{Missed, Wanted, unread};
use words::lay;

const QUOTE: u8 = 34;

const BACKSLASH: u8 = 92;

// A byte, and how many bytes it is written in.
#[derive(Clone, Copy)]
struct Byte {
    c: u8,
    n: usize,
}

// Where the text goes on, and how many bytes were read.
#[derive(Clone, Copy)]
pub(crate) struct Unquoted {
    pub(crate) at: usize,
    pub(crate) n: usize,
}

// The value of a digit of sixteen.
fn digit(c: u8) -> Option<u8>
    ensures { IfSome result (λ d. d < 16) }
{
    match c {
        b'0'..=b'9' => Some(c - b'0'),
        b'a'..=b'f' => Some(c - b'a' + 10),
        _ => None,
    }
}

// The byte behind \x.
fn hex_byte(s: &[u8]) -> Option<Byte>
    ensures { IfSome result (λ b. (0 < b.n) × (b.n ≤ length s.now)) }
{
    if s.len() < 4 {
        return None;
    }
    let high = digit(s[2])?;
    let low = digit(s[3])?;
    Some(Byte {
        c: high * 16 + low,
        n: 4,
    })
}

// The byte behind a backslash.
fn escaped_byte(s: &[u8]) -> Option<Byte>
    ensures { IfSome result (λ b. (0 < b.n) × (b.n ≤ length s.now)) }
{
    if s.len() < 2 {
        return None;
    }
    let c = s[1];
    if c == 120 {
        return hex_byte(s);
    }
    if c == QUOTE {
        return Some(Byte { c, n: 2 });
    }
    if c == BACKSLASH {
        return Some(Byte { c, n: 2 });
    }
    None
}

// The byte that a text begins with: as it is, or behind a backslash.
fn first_byte(s: &[u8]) -> Option<Byte>
    ensures { IfSome result (λ b. (0 < b.n) × (b.n ≤ length s.now)) }
{
    if s.len() == 0 {
        return None;
    }
    let c = s[0];
    if c == BACKSLASH {
        return escaped_byte(s);
    }
    if c < 32 {
        return None;
    }
    if 126 < c {
        return None;
    }
    Some(Byte { c, n: 1 })
}

// The bytes behind a quote, up to the next that stands by itself, are put at the start of the lent ones.
pub(crate) fn unquote(text: &[u8], from: usize, out: &mut [u8]) -> Result<Unquoted, Missed>
    ensures { IfOk result (λ u. u.n ≤ length out.old) }
{
    if text.len() <= from {
        return Err(unread(from, Wanted::Quoted));
    }
    let mut at = from + 1;
    let mut n = 0;
    // A while: each byte says how many it is written in, so there is no count to go over.
    while at < text.len() {
        if text[at] == QUOTE {
            return Ok(Unquoted { at: at + 1, n });
        }
        let Some(b) = first_byte(&text[at..]) else {
            return Err(unread(at, Wanted::Quoted));
        };
        if out.len() <= n {
            return Err(unread(at, Wanted::Shorter));
        }
        let c = b.c;
        lay(out, n, &[c]);
        n += 1;
        at += b.n;
    }
    Err(unread(at, Wanted::Quoted))
}
