// Types of two tables that have one kind and name, and differ: the joined table has both. Each table is compared with all before it,
// inside the joined one, where a type says what it said in its own.
use crate::given::{Given, out_of, put_word, word_of};
use crate::same::{record_at, same_name, same_record};
use crate::steps::KEPT;
use kindrows::{DATASEC, DECL_TAG, TYPE_TAG};
use lines::{Out, STDERR_FILENO};
use paper::Order;
use rows::{info_of, kind_of, name_of};
use titles::put_record;

// How many notes are written of one table at most; how many are left out is told.
const NOTES: u32 = 8;

// How many types of one name are looked at for a type, so that hostile tables cost no more than large ones.
const LOOKS: u32 = 16;

// The types of one table among those of the joined one: from behind `before` up to `last`.
#[derive(Clone, Copy)]
struct Own {
    before: u32,
    last: u32,
}

// A kind whose name says which type it is: every object has its own sections, and a tag's name is what it says.
fn is_titled(kind: u32) -> bool {
    match kind {
        DATASEC | DECL_TAG | TYPE_TAG => false,
        _ => true,
    }
}

// Two records have one kind and one name.
fn is_twin(blob: &[u8], order: Order, r: &[u8], s: &[u8]) -> bool {
    if kind_of(info_of(order, r)) != kind_of(info_of(order, s)) {
        return false;
    }
    let i = name_of(order, r);
    let j = name_of(order, s);
    same_name(blob, i.0, j.0)
}

// The first type of a table that has the kind and name of one before it, where there is one and none of them says the same.
fn twin_of(blob: &[u8], index: &[u32], n: u32, own: Own, t: u32) -> Option<u32> {
    let r = record_at(blob, index, n, t);
    let order = words::order_of(blob);
    let at = name_of(order, r);
    if at.0 == 0 || !is_titled(kind_of(info_of(order, r))) {
        return None;
    }
    let mut first = None;
    let mut left = LOOKS;
    for k in own.before..own.last {
        let u = k + 1;
        let s = record_at(blob, index, n, u);
        if is_twin(blob, order, r, s) {
            if same_record(blob, index, n, r, s) {
                return None;
            }
            first = first.or(Some(u));
            left -= 1;
            if left == 0 {
                return first;
            }
        }
    }
    first
}

// "scrieve: note: the tables differ in STRUCT blade: type 2 of A, type 3 of B", by the numbers that the two have in their own tables.
fn put_pair(rt: &HostRuntime, out: &mut Out, given: Given, blob: &[u8], r: &[u8], t: u32, u: u32) {
    out.put(b"scrieve: note: the tables differ in ");
    put_record(out, blob, r);
    out.put_with(b": type ", t as u64);
    out.put(b" of ");
    put_word(rt, out, word_of(given, 0));
    out.put_with(b", type ", u as u64);
    out.put(b" of ");
    put_word(rt, out, word_of(given, 1));
    out.put(b"\n");
}

// "scrieve: note: C differs from the tables before it in STRUCT blade: types 2 and 7 of OUT"
fn put_later(
    rt: &HostRuntime,
    out: &mut Out,
    given: Given,
    k: u32,
    blob: &[u8],
    r: &[u8],
    t: u32,
    u: u32,
) {
    out.put(b"scrieve: note: ");
    put_word(rt, out, word_of(given, k));
    out.put(b" differs from the tables before it in ");
    put_record(out, blob, r);
    out.put_with(b": types ", t as u64);
    out.put_with(b" and ", u as u64);
    out.put(b" of ");
    put_word(rt, out, out_of(given));
    out.put(b"\n");
}

// A type of the table k and one before it differ: of two tables each has its own number, of more the joined table's.
fn put_note(
    rt: &HostRuntime,
    out: &mut Out,
    given: Given,
    k: u32,
    blob: &[u8],
    r: &[u8],
    before: u32,
    t: u32,
    u: u32,
) {
    if given.count == 2 {
        if before <= u {
            put_pair(rt, out, given, blob, r, t, u - before);
            return;
        }
    }
    put_later(rt, out, given, k, blob, r, t, u);
}

fn put_others(out: &mut Out, found: u32) {
    if found <= NOTES {
        return;
    }
    out.put_with(b"scrieve: note: and in ", (found - NOTES) as u64);
    out.put(b" more\n");
}

// A note for each type before the table k that has such a twin in it, at most so many.
fn put_twins(
    rt: &HostRuntime,
    out: &mut Out,
    given: Given,
    k: u32,
    blob: &[u8],
    index: &[u32],
    n: u32,
    own: Own,
) {
    let before = own.before;
    let mut found: u32 = 0;
    for t in 1..=before {
        if let Some(u) = twin_of(blob, index, n, own, t) {
            if found < NOTES {
                let r = record_at(blob, index, n, t);
                put_note(rt, out, given, k, blob, r, before, t, u);
            }
            found = found.saturating_add(1);
        }
    }
    put_others(out, found);
}

// How many types stand before the table k: before the end all of them.
fn types_before(before: &[u32; KEPT], given: Given, k: u32, n: u32) -> u32 {
    let i = k as usize;
    if k < given.count {
        if i < KEPT {
            return before[i];
        }
    }
    n
}

// What the tables have in two shapes is told on standard error; the join is what it is.
pub(crate) fn note_twins(
    rt: &HostRuntime,
    given: Given,
    blob: &[u8],
    index: &[u32],
    n: u32,
    before: &[u32; KEPT],
) {
    let mut out = Out::to(STDERR_FILENO);
    for k in 0..given.count {
        let own = Own {
            before: types_before(before, given, k, n),
            last: types_before(before, given, k + 1, n),
        };
        put_twins(rt, &mut out, given, k, blob, index, n, own);
    }
    out.flush();
}
