// The table that an index shows: the one place that knows where a type's record stands. Any bytes, any index, any number of types.
// `base` is the blob that a table leans on; of a table that stands alone it has no bytes, and the view none of its types.
#![tactic(auto)]

ghost use Rattle.std.specs.Prelude.{◌≡◌, drop};
ghost use Rattle.paper.specs.rules.Table.{kind_at};
ghost use Rattle.paper.specs.rules.Word.{word_at};
ghost use Rattle.views.specs.Shown.{PartIn, ShownAs, Starts, StringsAs, WordOf, place_by, table_by};

use paper::{Order, Place, TypeNo};
use rows::kind_of;

// How a table is looked at: how many types its index shows, the byte order of their words, and how many of the types stand in the base.
#[derive(Clone, Copy)]
pub struct View {
    pub n: u32,
    pub before: u16,
    pub order: Order,
}

// Where a type's record begins in a blob; the blob's end where the index or the blob has no such place.
fn start_in(s: &[u8], index: &[u32], view: View, t: TypeNo) -> usize
    ensures { Starts s.now index.now view t.0 result }
{
    let end = s.len();
    let k = t.0;
    if k == 0 {
        return end;
    }
    let n = view.n;
    if n < k {
        return end;
    }
    let i = k as usize;
    if index.len() <= i {
        return end;
    }
    let p = index[i] as usize;
    if end < p {
        return end;
    }
    p
}

// The place that a report of a type carries, in the blob that holds its record.
pub fn place_of(index: &[u32], view: View, t: TypeNo) -> Place
    ensures { result.0 ≡ place_by index.now view t.0 }
{
    let k = t.0;
    if k == 0 {
        return Place(0);
    }
    let n = view.n;
    if n < k {
        return Place(0);
    }
    let i = k as usize;
    if index.len() <= i {
        return Place(0);
    }
    Place(index[i])
}

// The bytes of one blob from a type's record on.
fn part_in<'a>(s: &'a [u8], index: &[u32], view: View, t: TypeNo) -> &'a [u8]
    ensures { PartIn s.entry index.now view t.0 result }
{
    let from = start_in(s, index, view, t);
    &s[from..]
}

// The bytes from a type's record on; none for void and for a number above n, which read as the record of no kind.
pub fn record_of<'a>(base: &'a [u8], b: &'a [u8], index: &[u32], view: View, t: TypeNo) -> &'a [u8]
    ensures { ShownAs base.entry b.entry index.now view t.0 result }
{
    if t.0 <= view.before as u32 {
        return part_in(base, index, view, t);
    }
    let from = start_in(b, index, view, t);
    &b[from..]
}

// The word at a place behind a place of a blob; 0 where it is not there.
fn word_from(s: &[u8], from: usize, order: Order, at: Place) -> u32
    ensures { result ≡ word_at order (drop from s.now) at.0 }
{
    if s.len() < from {
        return 0;
    }
    words::read(order, &s[from..], at)
}

// The word at a place of a type's record; 0 where there is no such record, or no such word. By branches alone, so that in a chain of types
// the next load need not wait for a choice: the walks to a base and to a size read words, not the bytes of a record. Void is told by the
// test for the base, so that a table that stands alone pays for no test more.
pub fn word_of(base: &[u8], b: &[u8], index: &[u32], view: View, t: TypeNo, at: Place) -> u32
    ensures { WordOf base.now b.now index.now view t.0 at.0 result }
{
    let order = view.order;
    if t.0 <= view.before as u32 {
        return words::read(order, part_in(base, index, view, t), at);
    }
    let k = t.0;
    let n = view.n;
    if n < k {
        return 0;
    }
    let i = k as usize;
    if index.len() <= i {
        return 0;
    }
    let p = index[i] as usize;
    word_from(b, p, order, at)
}

// The kind of a type; 0 for void and for a number above n.
pub fn kind_at(base: &[u8], b: &[u8], index: &[u32], view: View, t: TypeNo) -> u32
    ensures { result ≡ kind_at (table_by base.now b.now index.now view) t.0 }
{
    kind_of(word_of(base, b, index, view, t, Place(4)))
}

// The string section of a blob, by its header.
pub fn strings_in(b: &[u8]) -> &[u8]
    ensures { StringsAs b.entry result }
{
    let end = b.len();
    let from = 24 + words::blob_word(b, Place(12)) as usize;
    if end < from {
        return &b[end..];
    }
    &b[from..]
}
