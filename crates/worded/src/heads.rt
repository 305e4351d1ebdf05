// A record's head in words: name offset, info word, third word.
use crate::Look;
use crate::referents::put_referent;
use fields::put_bytes;
use kindrows::FUNC;
use lines::Out;
use paper::NameOff;
use rows::{
    entry_words, flag_allowed, flag_of, info_of, is_known, kind_of, name_of, size_rule,
    third_allowed, third_of, third_role, vlen_allowed, vlen_of,
};
use titles::{put_kind, put_many};

// A word of the record, up to what it is.
pub(crate) fn put_word(out: &mut Out, is_meant: bool, blob: &[u8], at: usize) {
    put_bytes(out, is_meant, blob, at, 4);
    out.put(b"  ");
}

// The bytes at a place are among those that break the rule.
pub(crate) fn is_meant(look: Look, at: usize) -> bool {
    look.from <= at && at < look.to
}

// "name offset N: the name".
pub(crate) fn put_offset(out: &mut Out, blob: &[u8], at: NameOff) {
    out.put_with(b"name offset ", at.0 as u64);
    if header::nameless(blob, at) {
        out.put(b", past the strings");
        return;
    }
    let name = header::name(blob, at);
    if name.len() == 0 {
        out.put(b", empty");
        return;
    }
    out.put(b": ");
    out.put_name(name);
}

fn put_known(out: &mut Out, kind: u32) {
    if is_known(kind) {
        put_kind(out, kind);
        return;
    }
    out.put_with(b"kind ", kind as u64);
    out.put(b", which is none");
}

// What is said of a number that the kind may not have; a kind that is none has no rule.
fn put_judged(out: &mut Out, kind: u32, is_allowed: bool) {
    if is_allowed || !is_known(kind) {
        return;
    }
    out.put(b" (not allowed)");
}

// What vlen is for the kind: how many entries, a FUNC's linkage, or nothing, and then it is told only where it is not 0.
fn put_vlen(out: &mut Out, kind: u32, vlen: u32) {
    if entry_words(kind) != 0 {
        out.put(b", ");
        put_many(out, vlen as u64, b" entry", b" entries");
        return;
    }
    if kind == FUNC {
        out.put_with(b", linkage ", vlen as u64);
        put_judged(out, kind, vlen_allowed(kind, vlen));
        return;
    }
    if vlen == 0 {
        return;
    }
    out.put_with(b", vlen ", vlen as u64);
    put_judged(out, kind, vlen_allowed(kind, vlen));
}

fn put_flag_bit(out: &mut Out, info: u32) {
    let flag = flag_of(info);
    if flag == 0 {
        return;
    }
    let kind = kind_of(info);
    out.put(b", kind_flag 1");
    put_judged(out, kind, flag_allowed(kind, flag));
}

// Bits 16 to 23, 29 and 30 are 0.
fn is_spare_zero(info: u32) -> bool {
    info / 65536 % 256 == 0 && info / 536870912 % 4 == 0
}

fn put_spare(out: &mut Out, info: u32) {
    if is_spare_zero(info) {
        return;
    }
    out.put(b", spare bits set");
    put_judged(out, kind_of(info), false);
}

fn put_info(out: &mut Out, info: u32) {
    let kind = kind_of(info);
    put_known(out, kind);
    put_vlen(out, kind, vlen_of(info));
    put_flag_bit(out, info);
    put_spare(out, info);
    out.put(b"\n");
}

// The info word breaks the rule of the report: 7 is about its kind, 10 about its other fields.
fn is_info_wrong(number: u32, info: u32) -> bool {
    let kind = kind_of(info);
    if number == 7 {
        return true;
    }
    if number != 10 {
        return false;
    }
    !is_spare_zero(info) || !flag_allowed(kind, flag_of(info)) || !vlen_allowed(kind, vlen_of(info))
}

// What the third word is for the kind: a type, a size, or nothing.
fn put_third(out: &mut Out, blob: &[u8], index: &[u32], look: Look, kind: u32, w: u32) {
    if third_role(kind) != 0 {
        out.put_with(b"type ", w as u64);
        put_referent(out, blob, index, look, w);
        return;
    }
    if size_rule(kind) == 2 {
        out.put_with(b"size ", w as u64);
        put_judged(out, kind, third_allowed(kind, w));
        return;
    }
    out.put_with(b"third word ", w as u64);
    put_judged(out, kind, third_allowed(kind, w));
}

// The third word of a head, where it is there.
fn put_last(out: &mut Out, blob: &[u8], index: &[u32], r: &[u8], at: usize, look: Look) {
    let order = words::order_of(blob);
    if r.len() < 12 {
        return;
    }
    let kind = kind_of(info_of(order, r));
    let w = third_of(order, r);
    let is_wrong = look.number == 10 && !third_allowed(kind, w);
    put_word(out, is_wrong || is_meant(look, at), blob, at);
    put_third(out, blob, index, look, kind, w);
    out.put(b"\n");
}

// The head of the record that stands at a place, of which `r` is there; as many of its words as are there.
pub fn put_head(out: &mut Out, blob: &[u8], index: &[u32], r: &[u8], place: u32, look: Look) {
    let order = words::order_of(blob);
    let first = place as usize;
    let second = first + 4;
    let third = first + 8;
    if r.len() < 4 {
        return;
    }
    put_word(out, is_meant(look, first), blob, first);
    put_offset(out, blob, name_of(order, r));
    out.put(b"\n");
    if r.len() < 8 {
        return;
    }
    let info = info_of(order, r);
    put_word(out, is_info_wrong(look.number, info), blob, second);
    put_info(out, info);
    put_last(out, blob, index, r, third, look);
}
