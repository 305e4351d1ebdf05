// A value in words: a number in decimal, an enum's with its name, one of more than 64 bits in hexadecimal.
use bases::{base_of, record_of};
use entries::{put_signed, value_entry, value_number};
use handed::word_of;
use kindrows::{ENUM, ENUM64};
use lines::Out;
use paper::Order;
use rows::{info_of, kind_of, name_of, vlen_of};
use values::{MemberValue, Valued};

// Which value of an enum has a number: the first of them.
fn value_at(order: Order, r: &[u8], number: u64) -> Option<u32> {
    (0..vlen_of(info_of(order, r))).find(|i| value_number(order, r, *i) == number)
}

// The name of an enum's value, behind its number.
fn put_value_name(out: &mut Out, blob: &[u8], r: &[u8], number: u64) {
    let order = words::order_of(blob);
    let Some(i) = value_at(order, r, number) else {
        out.put(b" (no value of the enum has this number)");
        return;
    };
    out.put(b" (");
    out.put_name(header::name(blob, name_of(order, value_entry(order, r, i))));
    out.put(b")");
}

// A number of a type; the flag says that it has a sign.
fn put_number_of(out: &mut Out, blob: &[u8], index: &[u32], t: u32, flag: u32, number: u64) {
    out.put(b" = ");
    put_signed(out, flag, number);
    let r = record_of(blob, index, base_of(blob, index, t));
    let kind = kind_of(info_of(words::order_of(blob), r));
    match kind {
        ENUM | ENUM64 => put_value_name(out, blob, r, number),
        _ => {}
    }
}

// Sixteen bytes, the high one first.
fn put_longer(out: &mut Out, bytes: [u8; 16]) {
    out.put(b" = 0x");
    for b in bytes.iter().rev() {
        out.put_byte(*b);
    }
}

// The value of a member or an element of a type; nothing where it has none.
pub(crate) fn put_value(out: &mut Out, blob: &[u8], index: &[u32], t: u32, v: MemberValue) {
    let value = v.value;
    match value {
        Valued::Unsigned(n) => put_number_of(out, blob, index, t, 0, n),
        Valued::Signed(z) => put_number_of(out, blob, index, t, 1, word_of(z)),
        Valued::Longer => {
            let bytes = v.bytes;
            put_longer(out, bytes)
        }
        _ => {}
    }
}
