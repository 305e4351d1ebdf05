// The words behind a record's head that a report's rule is about; from the entry before the fault on where that is far behind.
ghost use Rattle.std.specs.Prelude.{◌≤◌};

use crate::Look;
use crate::heads::{is_meant, put_word};
use crate::tails::{is_about, put_role, spot_of};
use lines::Out;
use paper::{Order, Place};
use rows::{entry_words, info_of, kind_of, tail_words};
use titles::put_many;
use words::rest_from;

// How many words behind a head are shown at most.
const MOST: u32 = 24;

// How many words of a tail are there.
fn words_there(order: Order, r: &[u8]) -> u32 {
    let n = tail_words(info_of(order, r));
    if r.len() < 12 {
        return 0;
    }
    let there = (r.len() - 12) / 4;
    if there < n as usize {
        return there as u32;
    }
    n
}

// How many words of so many are left out in front of the first that is shown: all before the entry in front of the fault, where
// the fault is not among the first.
fn words_before(look: Look, place: u32, kind: u32, n: u32) -> u32
    ensures { result ≤ n }
{
    let first = (place as usize) + 12;
    let from = look.from;
    let each = entry_words(kind) as usize;
    if from < first + 4 * (MOST as usize) {
        return 0;
    }
    if each == 0 {
        return 0;
    }
    let k = (from - first) / 4;
    let inside = k % each;
    if k < inside {
        return 0;
    }
    let entry = k - inside;
    if entry < each {
        return 0;
    }
    let before = entry - each;
    if before < n as usize {
        return before as u32;
    }
    0
}

// A word behind the head.
fn put_behind(out: &mut Out, blob: &[u8], index: &[u32], r: &[u8], place: u32, look: Look, i: u32) {
    let order = words::order_of(blob);
    let from = 12 + 4 * (i as usize);
    let at = (place as usize) + from;
    put_word(out, is_meant(look, at), blob, at);
    let w = words::read(order, rest_from(r, from), Place(0));
    put_role(out, blob, index, look, info_of(order, r), i, w);
    out.put(b"\n");
}

fn put_more(out: &mut Out, n: u32) {
    if n == 0 {
        return;
    }
    out.put(b"    ... ");
    put_many(out, n as u64, b" word left out\n", b" words left out\n");
}

// The words behind the head of the record at a place that the rule is about.
pub fn put_tail(out: &mut Out, blob: &[u8], index: &[u32], r: &[u8], place: u32, look: Look) {
    let number = look.number;
    let order = words::order_of(blob);
    let kind = kind_of(info_of(order, r));
    let n = words_there(order, r);
    let from = words_before(look, place, kind, n);
    put_more(out, from);
    let mut left = MOST;
    for i in from..n {
        if left == 0 {
            put_more(out, n - i);
            return;
        }
        let spot = spot_of(kind, i);
        if is_about(number, spot.role) {
            put_behind(out, blob, index, r, place, look, i);
            left -= 1;
        }
    }
}
