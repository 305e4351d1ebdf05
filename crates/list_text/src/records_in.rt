// A type's line is read, and its words are put behind those of the types before it.
use crate::labels::{COUNT, LABELS, Slot, THIRD, line_of, slot_of};
use crate::names::{NAME_ROOM, find};
use crate::quoted::unquote;
use crate::takes::{
    Missed, Seen, Wanted, byte_at, number_seen, skip, take, take_label, take_number, unread,
    word_at,
};
use paper::{Order, Place};
use rows::tail_words;
use texts::line;
use titles::KIND_NAMES;

// Where the text goes on, and where the next record would.
#[derive(Clone, Copy)]
pub(crate) struct Kept {
    pub(crate) at: usize,
    pub(crate) end: usize,
}

// A head's words: its name, its info word, its third.
#[derive(Clone, Copy)]
struct Head {
    at: usize,
    name: u32,
    info: u32,
    third: u32,
}

// The kind of a name.
fn kind_named(s: &[u8]) -> Option<u32> {
    (1..20).find(|k| check::same(line(&KIND_NAMES, *k), s))
}

// The number of the type, a blank, its kind.
fn take_kind(text: &[u8], at: usize, t: u32) -> Result<Seen, Missed> {
    let Ok(number) = take_number(text, at) else {
        return Err(unread(at, Wanted::Type));
    };
    if number.n != t {
        return Err(unread(at, Wanted::Type));
    }
    let at = take(text, number.at, b" ", Wanted::Kind)?;
    let word = word_at(text, at);
    match kind_named(word) {
        Some(kind) => Ok(number_seen(skip(text, at, word.len()), kind)),
        None => Err(unread(at, Wanted::Kind)),
    }
}

// A name in words, which the strings must have.
fn found(strings: &[u8], before: usize, behind: usize, name: &[u8]) -> Result<Seen, Missed> {
    match find(strings, name) {
        Some(off) => Ok(number_seen(behind, off)),
        None => Err(unread(before, Wanted::Name)),
    }
}

// A name that is longer than any told in words is none of them.
fn too_long(m: Missed, at: usize) -> Missed {
    match m.what {
        Wanted::Shorter => unread(at, Wanted::Name),
        _ => m,
    }
}

fn take_quoted(text: &[u8], at: usize, strings: &[u8]) -> Result<Seen, Missed> {
    let mut space = [0u8; NAME_ROOM];
    match unquote(text, at, &mut space) {
        Ok(r) => {
            let n = r.n;
            found(strings, at, r.at, &space[..n])
        }
        Err(m) => Err(too_long(m, at)),
    }
}

// A dash for no name, an offset behind @, or a name in words.
fn take_name(text: &[u8], at: usize, strings: &[u8]) -> Result<Seen, Missed> {
    match byte_at(text, at) {
        b'-' => return Ok(number_seen(skip(text, at, 1), 0)),
        b'@' => return take_number(text, skip(text, at, 1)),
        b'"' => return take_quoted(text, at, strings),
        _ => {}
    }
    let word = word_at(text, at);
    if word.len() == 0 {
        return Err(unread(at, Wanted::Name));
    }
    found(strings, at, skip(text, at, word.len()), word)
}

// A count or a third word, where the kind's text has it.
fn take_word(text: &[u8], at: usize, label: u32) -> Result<Seen, Missed> {
    if line(&LABELS, label).len() == 0 {
        return Ok(number_seen(at, 0));
    }
    let at = take_label(text, at, label)?;
    take_number(text, at)
}

// The info word of a kind and a count; a plus behind the kind is its kind_flag.
fn info_word(is_flagged: bool, kind: u32, count: u32) -> u32 {
    let info = kind % 32 * 16777216 + count % 65536;
    if is_flagged {
        return 2147483648 + info;
    }
    info
}

fn behind_plus(text: &[u8], at: usize, is_flagged: bool) -> usize {
    if is_flagged {
        return skip(text, at, 1);
    }
    at
}

// All up to the tail.
fn take_head(text: &[u8], at: usize, strings: &[u8], t: u32) -> Result<Head, Missed> {
    let kind = take_kind(text, at, t)?;
    let is_flagged = byte_at(text, kind.at) == b'+';
    let at = behind_plus(text, kind.at, is_flagged);
    let at = take(text, at, b" ", Wanted::Name)?;
    let name = take_name(text, at, strings)?;
    let count = take_word(text, name.at, line_of(kind.n, COUNT))?;
    if 65535 < count.n {
        return Err(unread(name.at, Wanted::Count));
    }
    let third = take_word(text, count.at, line_of(kind.n, THIRD))?;
    Ok(Head {
        at: third.at,
        name: name.n,
        info: info_word(is_flagged, kind.n, count.n),
        third: third.n,
    })
}

// A word is put behind others, where there is room for it; where it ends is answered.
fn put_word(types: &mut [u8], at: usize, order: Order, w: u32) -> Option<usize> {
    if types.len() < at {
        return None;
    }
    if types.len() - at < 4 {
        return None;
    }
    words::write(order, &mut types[at..], Place(0), w);
    Some(at + 4)
}

fn put_head(types: &mut [u8], at: usize, order: Order, head: Head) -> Option<usize> {
    let at = put_word(types, at, order, head.name)?;
    let at = put_word(types, at, order, head.info)?;
    put_word(types, at, order, head.third)
}

// What stands before a word of the tail.
fn take_slot(text: &[u8], at: usize, slot: Slot) -> Result<usize, Missed> {
    if !slot.is_entry {
        return take_label(text, at, slot.line);
    }
    let at = take(text, at, b";", Wanted::Entry)?;
    if slot.is_name {
        return take(text, at, b" ", Wanted::Entry);
    }
    take_label(text, at, slot.line)
}

fn take_tail_word(text: &[u8], at: usize, strings: &[u8], slot: Slot) -> Result<Seen, Missed> {
    let at = take_slot(text, at, slot)?;
    if slot.is_name {
        return take_name(text, at, strings);
    }
    take_number(text, at)
}

// The words of a tail.
fn take_tail(
    text: &[u8],
    k: Kept,
    strings: &[u8],
    order: Order,
    info: u32,
    types: &mut [u8],
) -> Result<Kept, Missed> {
    let kind = rows::kind_of(info);
    let mut k = k;
    for i in 0..tail_words(info) {
        let w = take_tail_word(text, k.at, strings, slot_of(kind, i))?;
        let Some(end) = put_word(types, k.end, order, w.n) else {
            return Err(unread(k.at, Wanted::Shorter));
        };
        k = Kept { at: w.at, end };
    }
    Ok(k)
}

// The whole line of a type.
pub(crate) fn take_record(
    text: &[u8],
    k: Kept,
    strings: &[u8],
    order: Order,
    t: u32,
    types: &mut [u8],
) -> Result<Kept, Missed> {
    let head = take_head(text, k.at, strings, t)?;
    let Some(end) = put_head(types, k.end, order, head) else {
        return Err(unread(k.at, Wanted::Shorter));
    };
    let k = Kept { at: head.at, end };
    let k = take_tail(text, k, strings, order, head.info, types)?;
    let at = take(text, k.at, b"\n", Wanted::LineEnd)?;
    Ok(Kept { at, end: k.end })
}
