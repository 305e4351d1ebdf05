// The line of strings is read.
use crate::quoted::unquote;
use crate::takes::{Missed, Wanted, byte_at, skip, take, unread, word_at};
use paper::Order;
use words::lay;

// Where the text goes on, and how many bytes of strings were read.
#[derive(Clone, Copy)]
pub(crate) struct Strung {
    pub(crate) at: usize,
    pub(crate) n: usize,
}

// The byte order, and where the text goes on behind it.
#[derive(Clone, Copy)]
pub(crate) struct Ordered {
    pub(crate) at: usize,
    pub(crate) order: Order,
}

pub(crate) fn take_order(text: &[u8], at: usize) -> Result<Ordered, Missed> {
    if let Ok(at) = take(text, at, b"strings little-endian", Wanted::Strings) {
        return Ok(Ordered {
            at,
            order: Order::LowFirst,
        });
    }
    let at = take(text, at, b"strings big-endian", Wanted::Strings)?;
    Ok(Ordered {
        at,
        order: Order::HighFirst,
    })
}

// The zero byte behind a string; where there is no room nothing is read.
fn ended(s: Strung, out: &mut [u8]) -> Result<Strung, Missed> {
    let n = s.n;
    if out.len() <= n {
        return Err(unread(s.at, Wanted::Shorter));
    }
    out[n] = 0;
    Ok(Strung { at: s.at, n: n + 1 })
}

// A string between quotes, behind so many bytes.
fn take_quoted(text: &[u8], s: Strung, out: &mut [u8]) -> Result<Strung, Missed> {
    let n = s.n;
    if out.len() < n {
        return Err(unread(s.at, Wanted::Shorter));
    }
    let r = unquote(text, s.at, &mut out[n..])?;
    Ok(Strung {
        at: r.at,
        n: n + r.n,
    })
}

// A string without quotes.
fn take_bare(text: &[u8], s: Strung, out: &mut [u8]) -> Result<Strung, Missed> {
    let n = s.n;
    let word = word_at(text, s.at);
    if word.len() == 0 {
        return Err(unread(s.at, Wanted::String));
    }
    if out.len() < n {
        return Err(unread(s.at, Wanted::Shorter));
    }
    if out.len() - n < word.len() {
        return Err(unread(s.at, Wanted::Shorter));
    }
    lay(out, n, word);
    Ok(Strung {
        at: skip(text, s.at, word.len()),
        n: n + word.len(),
    })
}

// One string more, and its zero byte.
fn take_string(text: &[u8], s: Strung, out: &mut [u8]) -> Result<Strung, Missed> {
    let at = take(text, s.at, b" ", Wanted::String)?;
    let s = Strung { at, n: s.n };
    if byte_at(text, at) == b'"' {
        let s = take_quoted(text, s, out)?;
        return ended(s, out);
    }
    let s = take_bare(text, s, out)?;
    ended(s, out)
}

// The first string, which is empty in every table.
fn take_first(text: &[u8], at: usize, out: &mut [u8]) -> Result<Strung, Missed> {
    let at = take(text, at, b" \"\"", Wanted::First)?;
    ended(Strung { at, n: 0 }, out)
}

// All strings to the end of the line, each with its zero byte. As many turns as there are bytes in the text are enough.
pub(crate) fn take_strings(text: &[u8], at: usize, out: &mut [u8]) -> Result<Strung, Missed> {
    let mut s = take_first(text, at, out)?;
    for _ in 0..text.len() {
        if byte_at(text, s.at) == b'\n' {
            return Ok(Strung {
                at: skip(text, s.at, 1),
                n: s.n,
            });
        }
        s = take_string(text, s, out)?;
    }
    Err(unread(s.at, Wanted::String))
}
