// The list of an accepted table: its strings, then its records, one behind the other as they stand in the blob.
ghost use Rattle.std.specs.Prelude.{◌≡◌, length};
ghost use Rattle.list.specs.Listing.{ListAsk};
ghost use Rattle.lists.specs.Kept.{list_in};
ghost use Rattle.lists.specs.List.{string_tag};

use crate::bodies::{fields_len, put_body};
use paper::{Order, Place};
use rows::{kind_of, tail_words};

// How long it is.
pub(crate) fn list_len(b: &[u8]) -> usize
    requires { ListAsk b.now }
    ensures { result ≡ length (list_in b.now) }
{
    let order = words::order_of(b);
    let end = 24 + words::blob_word(b, Place(12)) as usize;
    let mut total = fields_len(b.len() - end);
    let mut p = 24;
    // A while: each record says where the next begins, so there is no count to go over.
    while p < end {
        let info = words::read(order, &b[p..], Place(4));
        let size = 12 + 4 * tail_words(info) as usize;
        total += fields_len(size);
        p += size;
    }
    total
}

// "Tag 32 holds the string section of a little-endian table, tag 33 that of a big-endian one".
fn string_tag(order: Order) -> u8
    ensures { result ≡ string_tag order }
{
    match order {
        Order::LowFirst => 32,
        Order::HighFirst => 33,
    }
}

// Into an output of just that length.
pub(crate) fn put_list(b: &[u8], out: &mut [u8])
    requires { (ListAsk b.now) × (length out.old ≡ length (list_in b.now)) }
    ensures { out.new ≡ list_in b.now }
{
    let order = words::order_of(b);
    let end = 24 + words::blob_word(b, Place(12)) as usize;
    put_body(string_tag(order), &b[end..], out, 0);
    let mut q = fields_len(b.len() - end);
    let mut p = 24;
    // A while: each record says where the next begins, so there is no count to go over.
    while p < end {
        let info = words::read(order, &b[p..], Place(4));
        let size = 12 + 4 * tail_words(info) as usize;
        let next = p + size;
        put_body(kind_of(info) as u8, &b[p..next], out, q);
        q += fields_len(size);
        p = next;
    }
}
