// The header's bytes, a line for each field: what reports 1 to 5 are about. Marked are those that break the rule.
use crate::bytes::put_bytes;
use lines::Out;
use paper::{BYTE_LIMIT, Order, Place};
use texts::line;
use titles::put_many;
use words::rest_from;

// What stands between so many bytes and their name: as much as makes four of them.
fn put_gap(out: &mut Out, n: usize) {
    if 4 <= n {
        out.put(b"  ");
        return;
    }
    out.put(line(b"\n           \n        \n     \n", n as u32));
}

// A function, so that a caller need not prove of an element that it fits.
fn wide_byte(b: u8) -> u64 {
    b as u64
}

// The number of a field of one byte or of four. The magic's two are shown as they stand.
fn put_value(out: &mut Out, order: Order, s: &[u8], n: usize) {
    if n == 4 {
        out.put_with(b" ", words::read(order, s, Place(0)) as u64);
        return;
    }
    if n == 1 && 0 < s.len() {
        out.put_with(b" ", wide_byte(s[0]));
        return;
    }
}

// The name of a field of so many bytes, and its number unless the table ends inside it.
fn put_field_name(out: &mut Out, order: Order, s: &[u8], n: usize, name: &[u8]) {
    if s.len() < n {
        put_gap(out, s.len());
        out.put(name);
        out.put(b", cut short\n");
        return;
    }
    put_gap(out, n);
    out.put(name);
    put_value(out, order, s, n);
    out.put(b"\n");
}

// A field; no line where no byte of it is there.
fn put_field(out: &mut Out, is_meant: bool, blob: &[u8], at: usize, n: usize, name: &[u8]) {
    let s = rest_from(blob, at);
    if s.len() == 0 {
        return;
    }
    put_bytes(out, is_meant, blob, at, n);
    put_field_name(out, words::order_of(blob), s, n, name);
}

// The first four bytes; for report 2 those are marked that are not as they must be.
fn put_opening(out: &mut Out, blob: &[u8], number: u32) {
    let w = words::read(Order::LowFirst, blob, Place(0));
    let magic = w % 65536;
    let is_magic = magic == 60319 || magic == 40939; // 9F EB, EB 9F
    let is_first = w / 65536 % 256 == 1;
    put_field(out, number == 2 && !is_magic, blob, 0, 2, b"magic");
    put_field(out, number == 2 && !is_first, blob, 2, 1, b"version");
    put_field(out, number == 2 && 16777216 <= w, blob, 3, 1, b"flags");
}

// The sections. For report 4 a word is marked that is wrong by itself, or an offset that is not the length before it; where only
// the sum is wrong, a line says so.
fn put_sections(out: &mut Out, blob: &[u8], number: u32) {
    let is_four = number == 4;
    let from = words::blob_word(blob, Place(8));
    let types = words::blob_word(blob, Place(12));
    let behind = words::blob_word(blob, Place(16));
    let strings = words::blob_word(blob, Place(20));
    put_field(
        out,
        is_four && from != 0,
        blob,
        8,
        4,
        b"type section's offset",
    );
    put_field(
        out,
        is_four && types % 4 != 0,
        blob,
        12,
        4,
        b"type section's length",
    );
    put_field(
        out,
        is_four && behind != types,
        blob,
        16,
        4,
        b"string section's offset",
    );
    put_field(
        out,
        number == 5 && strings == 0,
        blob,
        20,
        4,
        b"string section's length",
    );
}

fn is_zero(s: &[u8], at: usize) -> bool {
    let s = rest_from(s, at);
    s.len() != 0 && s[0] == 0
}

// The first and the last byte of the strings, as far as they are there. Behind a base the first may be any.
fn put_string_ends(out: &mut Out, blob: &[u8]) {
    let from = 24 + words::blob_word(blob, Place(12)) as usize;
    let n = words::blob_word(blob, Place(20)) as usize;
    if n == 0 {
        return;
    }
    let last = from + n - 1;
    let is_first_wrong = out.strings == 0 && !is_zero(blob, from);
    let is_last_wrong = !is_zero(blob, last);
    put_field(
        out,
        is_first_wrong,
        blob,
        from,
        1,
        b"first byte of the strings:",
    );
    put_field(
        out,
        is_last_wrong,
        blob,
        last,
        1,
        b"last byte of the strings:",
    );
}

// So many bytes; of a file that is too long no more are read than show that.
fn put_most(out: &mut Out, n: usize) {
    if BYTE_LIMIT < n {
        out.put(b"over 262144 bytes");
        return;
    }
    put_many(out, n as u64, b" byte", b" bytes");
}

// The bytes of a base: a header, its records and its strings.
fn put_base_length(out: &mut Out) {
    if out.strings == 0 {
        return;
    }
    out.put_with(
        b", its base ",
        24 + (out.records as u64) + (out.strings as u64),
    );
}

fn put_length(out: &mut Out, n: usize) {
    out.put(b"    the table has ");
    put_most(out, n);
    put_base_length(out);
    out.put(b"\n");
}

// The header, for a report from 1 to 5.
pub fn put_header(out: &mut Out, blob: &[u8], number: u32) {
    put_opening(out, blob, number);
    put_field(out, number == 3, blob, 4, 4, b"header length");
    put_sections(out, blob, number);
    if number == 5 {
        put_string_ends(out, blob);
        put_length(out, blob.len());
        return;
    }
    put_length(out, blob.len());
}
