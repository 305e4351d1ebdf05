// One look at a struct or a union with bit fields (kind_flag 1). Sums are in 64 bits.
ghost use Rattle.std.specs.Prelude.{◌≡◌, true, ◌⊎◌, ◌%◌};
ghost use Rattle.glance.specs.Glance.{Looks, field_fits, fields_fit, is_number};
ghost use Rattle.paper.specs.rules.KindNo as kinds;
ghost use Rattle.paper.specs.rules.Table.{flag_of, kind_of};
ghost use Rattle.paper.specs.terms.Reading.{record_in};

use crate::arrays::is_sized;
use crate::looks::{AWAITING, ENUMERATED, INTEGER, INTEGER_ALIAS, state_of, whole_bytes};
use kindrows::UNION;
use layout::follows;
use paper::{Order, Place};
use rows::{kind_of, tail_words};

// A state of an INT or an enum, of which a field of some bits may be.
fn is_number(s: u32) -> bool
    ensures { result ≡ is_number (s % 16) }
{
    let class = s % 16;
    if class == INTEGER {
        return true;
    }
    if class == INTEGER_ALIAS {
        return true;
    }
    class == ENUMERATED
}

// The whole of a type at a bit offset ends by so many bytes.
fn whole_fits(s: u32, from: u32, z: u32) -> bool
    ensures { result ≡ true → field_fits s 0 from z ≡ true }
{
    if !is_sized(s) {
        return false;
    }
    if from % 8 != 0 {
        return false;
    }
    (from as u64) + 8 * ((s / 16) as u64) <= 8 * (z as u64)
}

// A field of w bits, or the whole of its type where w is 0.
fn field_fits(s: u32, w: u32, from: u32, z: u32) -> bool
    ensures { result ≡ true → field_fits s w from z ≡ true }
{
    if w == 0 {
        return whole_fits(s, from, z);
    }
    if !is_number(s) {
        return false;
    }
    if 8 * ((s / 16) as u64) < (w as u64) {
        return false;
    }
    (from as u64) + (w as u64) <= 8 * (z as u64)
}

// The members, by their types' states.
fn fields_fit(order: Order, bytes: &[u8], work: &[u32]) -> bool
    requires { flag_of (record_in order bytes.now) ≡ 1 }
    ensures { result ≡ true → fields_fit work.now (record_in order bytes.now) ≡ true }
{
    let info = words::read(order, bytes, Place(4));
    let size = words::read(order, bytes, Place(8));
    let kind = kind_of(info);
    let n = tail_words(info) / 3;
    let mut before: u32 = 0;
    for i in 0..n {
        let p = 12 + 12 * i;
        let third = p + 8;
        let word = words::read(order, bytes, Place(third));
        let second = p + 4;
        let u = words::read(order, bytes, Place(second));
        let from = word % 16777216;
        if !field_fits(state_of(work, u), word / 16777216 % 256, from, size) {
            return false;
        }
        if !follows(kind == UNION, before, from) {
            return false;
        }
        before = from;
    }
    true
}

// A struct or a union with bit fields.
pub(crate) fn fields(order: Order, bytes: &[u8], work: &[u32]) -> u32
    requires { ((kind_of (record_in order bytes.now) ≡ kinds.STRUCT) ⊎ (kind_of (record_in order bytes.now) ≡ kinds.UNION)) × (flag_of (record_in order bytes.now) ≡ 1) }
    ensures { (result ≡ 0) ⊎ Looks work.now (record_in order bytes.now) result }
{
    if !fields_fit(order, bytes, work) {
        return AWAITING;
    }
    whole_bytes(words::read(order, bytes, Place(8)))
}
