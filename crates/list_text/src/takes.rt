// The smallest pieces of a line: bytes that must stand there, a number, a name.
use crate::labels::LABELS;
use crate::pens::alike;
use texts::{first_of, line, parse};

// What is expected where a text cannot be read.
#[derive(Clone, Copy)]
pub enum Wanted {
    Strings,
    String,
    Type,
    Kind,
    Name,
    Number,
    Count,
    Shorter,
    LineEnd,
    Entry,
    First,
    Quoted,
    Label(u32), // by its line in the labels
}

// Where a text cannot be read, and what is expected there.
#[derive(Clone, Copy)]
pub struct Missed {
    pub at: usize,
    pub what: Wanted,
}

// A number that stood in the text, and where the text goes on behind it.
#[derive(Clone, Copy)]
pub(crate) struct Seen {
    pub(crate) at: usize,
    pub(crate) n: u32,
}

pub(crate) fn unread(at: usize, what: Wanted) -> Missed {
    Missed { at, what }
}

pub(crate) fn number_seen(at: usize, n: u32) -> Seen {
    Seen { at, n }
}

// The byte at a place; 0 where the text has ended, which stands in no text.
pub(crate) fn byte_at(text: &[u8], at: usize) -> u8 {
    if text.len() <= at {
        return 0;
    }
    text[at]
}

// These bytes must stand there; where they end is answered.
pub(crate) fn take(text: &[u8], at: usize, s: &[u8], what: Wanted) -> Result<usize, Missed> {
    if text.len() < at {
        return Err(unread(at, what));
    }
    let n = alike(&text[at..], s);
    if n < s.len() {
        return Err(unread(at, what));
    }
    Ok(at + n)
}

// A label between blanks.
pub(crate) fn take_label(text: &[u8], at: usize, label: u32) -> Result<usize, Missed> {
    let what = Wanted::Label(label);
    let at = take(text, at, b" ", what)?;
    let at = take(text, at, line(&LABELS, label), what)?;
    take(text, at, b" ", what)
}

// A letter, a digit or an underscore.
fn is_word_byte(c: u8) -> bool {
    matches!(c, b'0'..=b'9' | b'A'..=b'Z' | b'a'..=b'z' | b'_')
}

// Letters, digits and underscores, as many as stand there; none where the text has ended.
pub(crate) fn word_at(text: &[u8], from: usize) -> &[u8] {
    if text.len() < from {
        return &text[..0];
    }
    let rest = &text[from..];
    match rest.iter().position(|c| !is_word_byte(*c)) {
        Some(n) => first_of(rest, n),
        None => rest,
    }
}

// So many bytes on; no further than the text goes.
pub(crate) fn skip(text: &[u8], at: usize, n: usize) -> usize {
    if text.len() < at {
        return at;
    }
    if text.len() - at < n {
        return at;
    }
    at + n
}

// A decimal number of 32 bits.
pub(crate) fn take_number(text: &[u8], at: usize) -> Result<Seen, Missed> {
    let word = word_at(text, at);
    match parse(word) {
        Some(n) => Ok(number_seen(skip(text, at, word.len()), n)),
        None => Err(unread(at, Wanted::Number)),
    }
}
