// A type's line is written.
use crate::labels::{COUNT, LABELS, Slot, THIRD, line_of, slot_of};
use crate::names::{NAME_ROOM, find, name_at};
use crate::pens::{Pen, put, put_number};
use paper::{Order, Place};
use quotes::name_text;
use rows::{flag_of, info_of, kind_of, tail_words, third_of, vlen_of};
use texts::line;
use titles::KIND_NAMES;

// Room for any name of so many bytes between quotes.
const SPACE: usize = 4 * NAME_ROOM + 2;

// A name by its offset.
fn put_offset(out: &mut [u8], p: Pen, off: u32) -> Result<Pen, usize> {
    let p = put(out, p, b"@")?;
    put_number(out, p, off)
}

// A name in words where these are short and say its offset, else the offset; a dash for none.
fn put_name(out: &mut [u8], p: Pen, strings: &[u8], off: u32) -> Result<Pen, usize> {
    if off == 0 {
        return put(out, p, b"-");
    }
    let name = name_at(strings, off);
    if NAME_ROOM < name.len() {
        return put_offset(out, p, off);
    }
    let mut space = [0u8; SPACE];
    let n = name_text(name, &mut space);
    if NAME_ROOM < n {
        return put_offset(out, p, off);
    }
    if find(strings, name) != Some(off) {
        return put_offset(out, p, off);
    }
    put(out, p, &space[..n])
}

// What stands before a word.
fn put_label(out: &mut [u8], p: Pen, label: u32) -> Result<Pen, usize> {
    let p = put(out, p, b" ")?;
    let p = put(out, p, line(&LABELS, label))?;
    put(out, p, b" ")
}

// A count or a third word, where the kind's text has it.
fn put_word(out: &mut [u8], p: Pen, label: u32, w: u32) -> Result<Pen, usize> {
    if line(&LABELS, label).len() == 0 {
        return Ok(p);
    }
    let p = put_label(out, p, label)?;
    put_number(out, p, w)
}

// What stands before a word of the tail: an entry's name has no label of its own.
fn put_slot(out: &mut [u8], p: Pen, slot: Slot) -> Result<Pen, usize> {
    if !slot.is_entry {
        return put_label(out, p, slot.line);
    }
    let p = put(out, p, b";")?;
    if slot.is_name {
        return put(out, p, b" ");
    }
    put_label(out, p, slot.line)
}

fn put_tail_word(out: &mut [u8], p: Pen, strings: &[u8], slot: Slot, w: u32) -> Result<Pen, usize> {
    let p = put_slot(out, p, slot)?;
    if slot.is_name {
        return put_name(out, p, strings, w);
    }
    put_number(out, p, w)
}

// The words of a tail.
fn put_tail(out: &mut [u8], p: Pen, strings: &[u8], order: Order, r: &[u8]) -> Result<Pen, usize> {
    let info = info_of(order, r);
    let n = tail_words(info);
    let kind = kind_of(info);
    let mut p = p;
    let mut at = 12;
    for i in 0..n {
        let w = words::read(order, r, Place(at));
        p = put_tail_word(out, p, strings, slot_of(kind, i), w)?;
        at = std::num::wrapping_add_u32(at, 4);
    }
    Ok(p)
}

// The number of a type and its kind; a plus behind the kind is its kind_flag.
fn put_kind(out: &mut [u8], p: Pen, t: u32, info: u32) -> Result<Pen, usize> {
    let p = put_number(out, p, t)?;
    let p = put(out, p, b" ")?;
    let p = put(out, p, line(&KIND_NAMES, kind_of(info)))?;
    if flag_of(info) == 0 {
        return put(out, p, b" ");
    }
    put(out, p, b"+ ")
}

// All up to the tail.
fn put_head(out: &mut [u8], p: Pen, strings: &[u8], order: Order, r: &[u8]) -> Result<Pen, usize> {
    let info = info_of(order, r);
    let kind = kind_of(info);
    let p = put_name(out, p, strings, rows::name_of(order, r).0)?;
    let p = put_word(out, p, line_of(kind, COUNT), vlen_of(info))?;
    put_word(out, p, line_of(kind, THIRD), third_of(order, r))
}

// The whole line of a type, whose record some bytes begin with.
pub(crate) fn put_record(
    out: &mut [u8],
    p: Pen,
    strings: &[u8],
    order: Order,
    r: &[u8],
    t: u32,
) -> Result<Pen, usize> {
    let p = put_kind(out, p, t, info_of(order, r))?;
    let p = put_head(out, p, strings, order, r)?;
    let p = put_tail(out, p, strings, order, r)?;
    put(out, p, b"\n")
}
