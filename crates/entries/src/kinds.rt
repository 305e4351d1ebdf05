// An entry's line, by the kind of its record: a member, a value, a parameter, or a section's entry.
use crate::below::{Listed, put_member};
use bases::{long_entry, short_entry};
use kindrows::{ENUM, ENUM64, FUNC_PROTO, STRUCT, UNION};
use lines::Out;
use paper::{Order, Place};
use rows::{flag_of, info_of, kind_of};
use titles::{put_based, put_entry_name, put_many, put_type};

// A number of 64 bits, signed where the flag says so.
pub fn put_signed(out: &mut Out, flag: u32, n: u64) {
    if flag == 0 {
        out.put_wide(n);
        return;
    }
    if n < 9223372036854775808 {
        out.put_wide(n);
        return;
    }
    out.put(b"-");
    out.put_wide(18446744073709551615 - n + 1);
}

// A word of 32 bits, as 64 bits have it: its sign carried on where the flag says so.
fn widened(flag: u32, w: u32) -> u64 {
    if flag == 0 {
        return w as u64;
    }
    if w < 2147483648 {
        return w as u64;
    }
    (w as u64) + 18446744069414584320
}

// A value of an enum: name and number.
fn put_value(out: &mut Out, blob: &[u8], flag: u32, e: &[u8], n: u64) {
    out.put_start();
    put_entry_name(out, blob, e);
    out.put(b" = ");
    put_signed(out, flag, n);
    out.put(b"\n");
}

// The number of an ENUM64's value: the low word, then the high one.
fn wide_value(order: Order, e: &[u8]) -> u64 {
    let low = words::read(order, e, Place(4));
    let high = words::read(order, e, Place(8));
    (low as u64) + (high as u64) * 4294967296
}

// A parameter: name and type; the last may stand for any number of others.
fn put_parameter(out: &mut Out, blob: &[u8], index: &[u32], e: &[u8]) {
    let t = words::read(words::order_of(blob), e, Place(4));
    out.put_start();
    if t == 0 {
        out.put(b"    ...\n");
        return;
    }
    put_entry_name(out, blob, e);
    out.put(b": ");
    put_based(out, blob, index, t);
    out.put(b"\n");
}

// A section's entry: variable, size and place.
fn put_placed(out: &mut Out, blob: &[u8], index: &[u32], e: &[u8]) {
    let order = words::order_of(blob);
    out.put_start();
    out.put(b"    ");
    put_type(out, blob, index, words::read(order, e, Place(0)));
    out.put(b": ");
    put_many(
        out,
        words::read(order, e, Place(8)) as u64,
        b" byte",
        b" bytes",
    );
    out.put_with(b" from byte ", words::read(order, e, Place(4)) as u64);
    out.put(b"\n");
}

// The bytes from a value of an enum on, of either width.
pub fn value_entry(order: Order, r: &[u8], i: u32) -> &[u8] {
    if kind_of(info_of(order, r)) == ENUM {
        return short_entry(r, i);
    }
    long_entry(r, i)
}

// Its number, as 64 bits have it.
pub fn value_number(order: Order, r: &[u8], i: u32) -> u64 {
    let info = info_of(order, r);
    let e = value_entry(order, r, i);
    if kind_of(info) == ENUM {
        return widened(flag_of(info), words::read(order, e, Place(4)));
    }
    wide_value(order, e)
}

// A value of an enum, of either width.
fn put_number_of(out: &mut Out, blob: &[u8], r: &[u8], i: u32) {
    let order = words::order_of(blob);
    let flag = flag_of(info_of(order, r));
    let e = value_entry(order, r, i);
    put_value(out, blob, flag, e, value_number(order, r, i));
}

// An entry by the kind of its record.
pub fn put_entry(out: &mut Out, l: Listed, blob: &[u8], index: &[u32], r: &[u8], i: u32) -> Listed {
    match kind_of(info_of(words::order_of(blob), r)) {
        STRUCT | UNION => return put_member(out, l, blob, index, r, i),
        ENUM | ENUM64 => put_number_of(out, blob, r, i),
        FUNC_PROTO => put_parameter(out, blob, index, short_entry(r, i)),
        _ => put_placed(out, blob, index, long_entry(r, i)),
    }
    l
}
