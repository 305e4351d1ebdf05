// Report 10: "head words break the list".
#![tactic(auto)]

ghost use Rattle.std.specs.Prelude.{◌≡◌};
ghost use Rattle.paper.specs.rules.Heads.{head_ok, spare_zero};
ghost use Rattle.paper.specs.terms.Reading.{record_in};
ghost use Rattle.heads.specs.HeadBy.{head_by};

use paper::{Order, Place};
use rows::{flag_allowed, flag_of, kind_of, third_allowed, vlen_allowed, vlen_of};

// The spare bits of an info word are 0.
fn spare_zero(info: u32) -> bool
    ensures { result ≡ spare_zero info }
{
    if info / 65536 % 256 != 0 {
        return false;
    }
    info / 536870912 % 4 == 0
}

// The list, by the info word and the third word.
fn words_ok(info: u32, third: u32) -> bool
    ensures { result ≡ head_by info third }
{
    let kind = kind_of(info);
    if !spare_zero(info) {
        return false;
    }
    if !flag_allowed(kind, flag_of(info)) {
        return false;
    }
    if !vlen_allowed(kind, vlen_of(info)) {
        return false;
    }
    third_allowed(kind, third)
}

// The head of the record keeps to the list.
pub fn head_ok(order: Order, bytes: &[u8]) -> bool
    ensures { result ≡ head_ok (record_in order bytes.now) }
{
    words_ok(
        words::read(order, bytes, Place(4)),
        words::read(order, bytes, Place(8)),
    )
}
