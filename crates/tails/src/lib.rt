// Report 12: "a tail word breaks the list".
#![tactic(auto)]

ghost use Rattle.std.specs.Prelude.{◌≡◌, [], ◌∷◌, ◌<◌};
ghost use Rattle.paper.specs.rules.Choice.{member};
ghost use Rattle.paper.specs.terms.Reading.{record_in};
ghost use Rattle.paper.specs.rules.Tails.{int_word_ok, linkage_word_ok, tail_ok};
ghost use Rattle.tails.specs.Voids.{voids_last_from};

use kindrows::{FUNC_PROTO, INT, VAR};
use paper::{Order, Place};
use rows::{kind_of, vlen_of};

// An encoding that an INT may have.
fn encoding_ok(e: u32) -> bool
    ensures { result ≡ member e (0 ∷ 1 ∷ 2 ∷ 4 ∷ []) }
{
    if e <= 2 {
        return true;
    }
    e == 4
}

// The word of an INT of so many bytes. The size is any word, so eight times it is taken in 64 bits.
pub fn int_ok(w: u32, size: u32) -> bool
    ensures { result ≡ int_word_ok w size }
{
    if w / 256 % 256 != 0 {
        return false;
    }
    if w / 268435456 % 16 != 0 {
        return false;
    }
    if !encoding_ok(w / 16777216 % 16) {
        return false;
    }
    if w % 256 < 1 {
        return false;
    }
    (w / 65536 % 256 + w % 256) as u64 <= 8 * (size as u64)
}

// A VAR's linkage.
fn linkage_ok(w: u32) -> bool
    ensures { result ≡ linkage_word_ok w }
{
    w <= 2
}

// So many parameters: one of type 0 is last and has name 0.
fn voids_last(order: Order, bytes: &[u8], n: u32) -> bool
    requires { n < 65536 }
    ensures { result ≡ voids_last_from order bytes.now 12 n }
{
    for i in 0..n {
        let p = 12 + 8 * i;
        if words::read(order, bytes, Place(p + 4)) == 0 {
            if i + 1 != n {
                return false;
            }
            return words::read(order, bytes, Place(p)) == 0;
        }
    }
    true
}

// The tail of the record keeps to the list.
pub fn tail_ok(order: Order, bytes: &[u8]) -> bool
    ensures { result ≡ tail_ok (record_in order bytes.now) }
{
    let info = words::read(order, bytes, Place(4));
    match kind_of(info) {
        INT => int_ok(
            words::read(order, bytes, Place(12)),
            words::read(order, bytes, Place(8)),
        ),
        FUNC_PROTO => voids_last(order, bytes, vlen_of(info)),
        VAR => linkage_ok(words::read(order, bytes, Place(12))),
        _ => true,
    }
}
