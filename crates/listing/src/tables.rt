// A call's listing: one type, every type of a table, or every type that has a name. What members without a name may fill is bounded
// for the whole call, since a small table can hold one struct without measure.
use crate::show::put_whole_type;
use bases::record_of;
use entries::Listed;
use lines::Out;
use rows::name_of;
use titles::put_many;

// How many lines members without a name get in one call.
pub const NESTED: u32 = 4096;

// How many lines are left, how many types' were cut, and how many types were shown.
#[derive(Clone, Copy)]
struct Call {
    left: u32,
    cut: u32,
    shown: u32,
}

// Nothing is shown yet.
const STARTED: Call = Call {
    left: NESTED,
    cut: 0,
    shown: 0,
};

// A count that stops at the largest number; the types of a table stay far below it.
fn one_more(n: u32, is_more: bool) -> u32 {
    n.saturating_add(u32::from(is_more))
}

// One type more.
fn shown(out: &mut Out, c: Call, blob: &[u8], index: &[u32], t: u32) -> Call {
    let first = Listed {
        left: c.left,
        is_cut: false,
    };
    let l = put_whole_type(out, first, blob, index, t);
    Call {
        left: l.left,
        cut: one_more(c.cut, l.is_cut),
        shown: one_more(c.shown, true),
    }
}

// What was left out, if anything was.
fn ended(out: &mut Out, c: Call) {
    if c.cut == 0 {
        return;
    }
    out.put_start();
    out.put(b"left out: members below those without a name, of ");
    put_many(out, c.cut as u64, b" type\n", b" types\n");
}

// A type, with its entries.
pub fn show_one(out: &mut Out, blob: &[u8], index: &[u32], t: u32) {
    let c = shown(out, STARTED, blob, index, t);
    ended(out, c);
}

// Every type of a table of so many behind the first ones, which are a base's.
pub fn show_all(out: &mut Out, blob: &[u8], index: &[u32], first: u32, n: u32) {
    let mut c = STARTED;
    for t in first..n {
        c = shown(out, c, blob, index, t + 1);
    }
    ended(out, c);
}

// A type has this name, byte for byte.
pub fn is_named(blob: &[u8], index: &[u32], t: u32, name: &[u8]) -> bool {
    let r = record_of(blob, index, t);
    check::same(header::name(blob, name_of(words::order_of(blob), r)), name)
}

// Every type of a table of so many that has this name, and whether there is one.
pub fn show_named(out: &mut Out, blob: &[u8], index: &[u32], n: u32, name: &[u8]) -> bool {
    let mut c = STARTED;
    for t in 1..=n {
        if is_named(blob, index, t, name) {
            c = shown(out, c, blob, index, t);
        }
    }
    ended(out, c);
    0 < c.shown
}
