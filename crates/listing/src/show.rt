// The lines of a type: its own, and below it one for each entry.
use bases::{fourth_of, record_of};
use entries::{Listed, put_entry};
use kindrows::{ARRAY, DECL_TAG, ENUM64, FUNC, FWD, VAR};
use lines::Out;
use paper::{Order, Place, TypeNo};
use rows::{entry_words, flag_of, info_of, kind_of, third_of, third_role, vlen_of};
use texts::line;
use titles::{put_based, put_many, put_numbers, put_size, put_type};

// An ARRAY: count, element and index.
fn put_array(out: &mut Out, blob: &[u8], index: &[u32], r: &[u8]) {
    let order = words::order_of(blob);
    out.put_with(b", ", words::read(order, r, Place(20)) as u64);
    out.put(b" of ");
    put_based(out, blob, index, fourth_of(order, r));
    out.put(b", index ");
    put_based(out, blob, index, words::read(order, r, Place(16)));
}

fn put_linkage(out: &mut Out, linkage: u32) {
    out.put(b", ");
    out.put(line(b"static\nglobal\nextern\n", linkage));
}

// A FWD: what it stands for.
fn put_forward(out: &mut Out, flag: u32) {
    if flag == 0 {
        out.put(b", struct");
        return;
    }
    out.put(b", union");
}

// A DECL_TAG: which part of what it is on, if it is on a part.
fn put_component(out: &mut Out, order: Order, r: &[u8]) {
    if kind_of(info_of(order, r)) != DECL_TAG {
        return;
    }
    let component = fourth_of(order, r);
    if component == 4294967295 {
        out.put(b", no component");
        return;
    }
    out.put_with(b", component ", component as u64);
}

// What a kind alone has.
fn put_own(out: &mut Out, blob: &[u8], index: &[u32], r: &[u8]) {
    let order = words::order_of(blob);
    let info = info_of(order, r);
    let kind = kind_of(info);
    match kind {
        ARRAY => put_array(out, blob, index, r),
        FWD => put_forward(out, flag_of(info)),
        FUNC => put_linkage(out, vlen_of(info)),
        VAR => put_linkage(out, fourth_of(order, r)),
        _ => {}
    }
}

// What a type refers to, with a word for how.
fn put_referent(out: &mut Out, blob: &[u8], index: &[u32], r: &[u8]) {
    let order = words::order_of(blob);
    let kind = kind_of(info_of(order, r));
    if third_role(kind) == 0 {
        return;
    }
    let how = b"\n\nto\n\n\n\n\n\nto\nto\nto\nto\nof\nreturns\nof\n\n\non\nto\n";
    out.put(b", ");
    out.put(line(how, kind));
    out.put(b" ");
    put_based(out, blob, index, third_of(order, r));
}

// How many entries a type has, with a word for what they are.
fn put_count(out: &mut Out, order: Order, r: &[u8]) {
    let info = info_of(order, r);
    let kind = kind_of(info);
    if entry_words(kind) == 0 {
        return;
    }
    let one = b"\n\n\n\n member\n member\n value\n\n\n\n\n\n\n parameter\n\n entry\n\n\n\n value\n";
    let many =
        b"\n\n\n\n members\n members\n values\n\n\n\n\n\n\n parameters\n\n entries\n\n\n\n values\n";
    out.put(b", ");
    put_many(out, vlen_of(info) as u64, line(one, kind), line(many, kind));
}

// The tags' kind_flag, which says that they stand for an attribute.
fn put_flag(out: &mut Out, order: Order, r: &[u8]) {
    let info = info_of(order, r);
    let kind = kind_of(info);
    if kind < DECL_TAG {
        return;
    }
    if kind == ENUM64 {
        return;
    }
    if flag_of(info) == 0 {
        return;
    }
    out.put(b", kind_flag 1");
}

// What stands behind the size.
fn put_details(out: &mut Out, blob: &[u8], index: &[u32], r: &[u8]) {
    let order = words::order_of(blob);
    put_numbers(out, b", ", order, r, b"");
    put_own(out, blob, index, r);
    put_referent(out, blob, index, r);
    put_component(out, order, r);
    put_count(out, order, r);
    put_flag(out, order, r);
}

// The line of a type.
pub fn put_title(out: &mut Out, blob: &[u8], index: &[u32], t: u32) {
    out.put_start();
    put_type(out, blob, index, t);
    out.put(b": ");
    put_size(out, sizes::size(blob, index, TypeNo(t)));
    put_details(out, blob, index, record_of(blob, index, t));
    out.put(b"\n");
}

// A line for each entry of a record.
fn put_entries(out: &mut Out, l: Listed, blob: &[u8], index: &[u32], r: &[u8]) -> Listed {
    let info = info_of(words::order_of(blob), r);
    if entry_words(kind_of(info)) == 0 {
        return l;
    }
    let n = vlen_of(info);
    let mut l = l;
    for i in 0..n {
        l = put_entry(out, l, blob, index, r, i);
    }
    l
}

// A type, with its entries.
pub(crate) fn put_whole_type(
    out: &mut Out,
    l: Listed,
    blob: &[u8],
    index: &[u32],
    t: u32,
) -> Listed {
    put_title(out, blob, index, t);
    put_entries(out, l, blob, index, record_of(blob, index, t))
}
