// A type as it is named in a line: number, kind and name, and what its base is; and a number with its word.
use bases::{base_of, fourth_of, record_of, sign_of};
use kindrows::INT;
use lines::Out;
use paper::{NameOff, Order};
use rows::{info_of, is_known, kind_of, name_of};
use texts::line;

// The kinds' names, a line for each number.
pub const KIND_NAMES: [u8; 128] = *b"\n\
    INT\n\
    PTR\n\
    ARRAY\n\
    STRUCT\n\
    UNION\n\
    ENUM\n\
    FWD\n\
    TYPEDEF\n\
    VOLATILE\n\
    CONST\n\
    RESTRICT\n\
    FUNC\n\
    FUNC_PROTO\n\
    VAR\n\
    DATASEC\n\
    FLOAT\n\
    DECL_TAG\n\
    TYPE_TAG\n\
    ENUM64\n";

// The kind's name.
pub fn put_kind(out: &mut Out, kind: u32) {
    out.put(line(&KIND_NAMES, kind));
}

// A number, with the word for one or for several behind it.
pub fn put_many(out: &mut Out, n: u64, one: &[u8], many: &[u8]) {
    out.put_wide(n);
    if n == 1 {
        out.put(one);
        return;
    }
    out.put(many);
}

// The name at an offset, with a space before it; nothing where it is empty.
fn put_named(out: &mut Out, blob: &[u8], at: NameOff) {
    let name = header::name(blob, at);
    if name.len() == 0 {
        return;
    }
    out.put(b" ");
    out.put_name(name);
}

// What the line of an entry begins with: its name, indented.
pub fn put_entry_name(out: &mut Out, blob: &[u8], e: &[u8]) {
    let at = name_of(words::order_of(blob), e);
    if at.0 == 0 {
        out.put(b"    (no name)");
        return;
    }
    out.put(b"   ");
    put_named(out, blob, at);
}

// The kind of a record and its name, if it has one.
pub fn put_record(out: &mut Out, blob: &[u8], r: &[u8]) {
    let order = words::order_of(blob);
    let kind = kind_of(info_of(order, r));
    if !is_known(kind) {
        out.put(b"kind ");
        out.put_number(kind);
        return;
    }
    put_kind(out, kind);
    put_named(out, blob, name_of(order, r));
}

// A type: its number, kind and name. Of a table that is refused not every record is read.
pub fn put_type(out: &mut Out, blob: &[u8], index: &[u32], t: u32) {
    if t == 0 {
        out.put(b"void");
        return;
    }
    out.put_number(t);
    let r = record_of(blob, index, t);
    if r.len() < 12 {
        out.put(b" (not read)");
        return;
    }
    out.put(b" ");
    put_record(out, blob, r);
}

// The word for how numbers are read.
fn put_sign(out: &mut Out, sign: u32) {
    out.put(line(b"\nunsigned\nsigned\nchar\n\nbool\n", sign));
}

// An INT's bits: how many, and where they begin, unless at bit 0.
fn put_int_bits(out: &mut Out, w: u32) {
    out.put(b", ");
    put_many(out, (w % 256) as u64, b" bit", b" bits");
    let from = w / 65536 % 256;
    if from == 0 {
        return;
    }
    out.put_with(b" from bit ", from as u64);
}

// How the numbers of a record are read, and how many bits an INT's have; nothing of a record that has none.
pub fn put_numbers(out: &mut Out, before: &[u8], order: Order, r: &[u8], behind: &[u8]) {
    let sign = sign_of(order, r);
    if sign == 0 {
        return;
    }
    out.put(before);
    put_sign(out, sign);
    if kind_of(info_of(order, r)) == INT {
        put_int_bits(out, fourth_of(order, r));
        out.put(behind);
        return;
    }
    out.put(behind);
}

// What the base of a type is, where that is known as a number: "(unsigned, 16 bits)".
fn put_base(out: &mut Out, blob: &[u8], index: &[u32], t: u32) {
    let base = base_of(blob, index, t);
    if base == 0 {
        return;
    }
    put_numbers(
        out,
        b" (",
        words::order_of(blob),
        record_of(blob, index, base),
        b")",
    );
}

// A type that another refers to, with what its base is.
pub fn put_based(out: &mut Out, blob: &[u8], index: &[u32], t: u32) {
    put_type(out, blob, index, t);
    put_base(out, blob, index, t);
}
