// Where a record and its entries stand, by the index that a check has left, and the number of a type's base.
ghost use Rattle.std.specs.Prelude.{◌≡◌, ◌+◌, ◌*◌, length};
ghost use Rattle.paper.specs.rules.Word.{word_at};
ghost use Rattle.words.specs.Rest.{RestOf};
ghost use Rattle.bases.specs.Based.{base_in, place_in};

use paper::{Order, Place};
use rows::{info_of, is_alias, kind_of, third_of};
use words::rest_from;

// A function, so that a caller need not prove of an element that it fits.
fn wide(n: u32) -> usize
    ensures { result ≡ n }
{
    n as usize
}

// The bytes from a type's record on; none past the places of the index.
pub fn record_of<'a>(blob: &'a [u8], index: &[u32], t: u32) -> &'a [u8]
    ensures { RestOf result blob.entry (place_in blob.now index.now t) }
{
    let k = t as usize;
    if index.len() <= k {
        return rest_from(blob, blob.len());
    }
    rest_from(blob, wide(index[k]))
}

// The tail's first word: what an INT, a VAR and a DECL_TAG have, and an ARRAY's element.
pub fn fourth_of(order: Order, r: &[u8]) -> u32
    ensures { result ≡ word_at order r.now 12 }
{
    words::read(order, r, Place(12))
}

// The bytes from an entry of three words on.
pub fn long_entry(r: &[u8], i: u32) -> &[u8]
    ensures { RestOf result r.entry (12 + 12 * i) }
{
    rest_from(r, 12 + 12 * (i as usize))
}

// The bytes from an entry of two words on.
pub fn short_entry(r: &[u8], i: u32) -> &[u8]
    ensures { RestOf result r.entry (12 + 8 * i) }
{
    rest_from(r, 12 + 8 * (i as usize))
}

// The number of the base. In an accepted table no chain is longer than the index.
pub fn base_of(blob: &[u8], index: &[u32], t: u32) -> u32
    ensures { result ≡ base_in blob.now index.now (length index.now) t }
{
    let mut at = t;
    for _ in 0..index.len() {
        let order = words::order_of(blob);
        let r = record_of(blob, index, at);
        if !is_alias(kind_of(info_of(order, r))) {
            return at;
        }
        at = third_of(order, r);
    }
    at
}
