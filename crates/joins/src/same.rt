// Whether two types of a table say the same: the info word, names by their bytes, what is referred to by its kind, name and
// size, one step and no further, all other words as they stand.
use answers::of_sized;
use paper::{Order, Place, Sized, TypeNo};
use rows::{
    entry_role, entry_words, info_of, is_name, is_reference, kind_of, name_of, once_role,
    once_words, tail_words, third_of, third_role,
};
use texts::first_of;
use views::{View, record_of, strings_in};
use words::rest_from;

// A name is compared that ends before so many bytes, as every identifier does.
const NAME: usize = 128;

pub(crate) fn record_at<'a>(blob: &'a [u8], index: &[u32], n: u32, t: u32) -> &'a [u8] {
    let order = words::order_of(blob);
    record_of(
        &blob[..0],
        blob,
        index,
        View {
            n,
            order,
            before: 0,
        },
        TypeNo(t),
    )
}

// The bytes from a name on, as many as are compared.
fn name_bytes(blob: &[u8], at: u32) -> &[u8] {
    first_of(rest_from(strings_in(blob), at as usize), NAME)
}

// Up to a zero byte, which both must have, two parts hold the same.
fn same_until_zero(s: &[u8], z: &[u8]) -> bool {
    // by their places and no `zip`, whose two ends are asked for each byte: each type of one table meets each of the other here
    for k in 0..s.len().min(z.len()) {
        if s[k] != z[k] {
            return false;
        }
        if s[k] == 0 {
            return true;
        }
    }
    false
}

pub(crate) fn same_name(blob: &[u8], i: u32, j: u32) -> bool {
    same_until_zero(name_bytes(blob, i), name_bytes(blob, j))
}

// By their numbers: a match over each pair of answers would say no more.
fn same_size(s: Sized, z: Sized) -> bool {
    let one = of_sized(s);
    let other = of_sized(z);
    one.number == other.number && one.p == other.p
}

// What stands at two numbers has one kind, name and size.
fn same_referent(blob: &[u8], index: &[u32], n: u32, t: u32, u: u32) -> bool {
    let order = words::order_of(blob);
    let r = record_at(blob, index, n, t);
    let s = record_at(blob, index, n, u);
    if kind_of(info_of(order, r)) != kind_of(info_of(order, s)) {
        return false;
    }
    let i = name_of(order, r);
    let j = name_of(order, s);
    if !same_name(blob, i.0, j.0) {
        return false;
    }
    same_size(
        sizes::size(blob, index, TypeNo(t)),
        sizes::size(blob, index, TypeNo(u)),
    )
}

// Two words of one role say the same.
fn same_word(blob: &[u8], index: &[u32], n: u32, role: u32, w: u32, v: u32) -> bool {
    if is_name(role) {
        return same_name(blob, w, v);
    }
    if is_reference(role) {
        return same_referent(blob, index, n, w, v);
    }
    w == v
}

// The role of a word behind a head.
fn role_of(kind: u32, i: u32) -> u32 {
    let once = once_words(kind);
    let each = entry_words(kind);
    if i < once {
        return once_role(kind, i);
    }
    if each == 0 {
        return 0;
    }
    let j = i - once;
    entry_role(kind, j % each)
}

// A word behind the head of a record.
fn word_behind(order: Order, r: &[u8], i: u32) -> u32 {
    words::read(order, rest_from(r, 12 + 4 * (i as usize)), Place(0))
}

// Two records of one info word say the same in every word behind the head.
fn same_tail(blob: &[u8], index: &[u32], n: u32, r: &[u8], s: &[u8]) -> bool {
    let order = words::order_of(blob);
    let info = info_of(order, r);
    let kind = kind_of(info);
    (0..tail_words(info)).all(|i| {
        let w = word_behind(order, r, i);
        let v = word_behind(order, s, i);
        same_word(blob, index, n, role_of(kind, i), w, v)
    })
}

// Two records say the same.
pub(crate) fn same_record(blob: &[u8], index: &[u32], n: u32, r: &[u8], s: &[u8]) -> bool {
    let order = words::order_of(blob);
    let info = info_of(order, r);
    if info != info_of(order, s) {
        return false;
    }
    let role = third_role(kind_of(info));
    let w = third_of(order, r);
    let v = third_of(order, s);
    if !same_word(blob, index, n, role, w, v) {
        return false;
    }
    same_tail(blob, index, n, r, s)
}
