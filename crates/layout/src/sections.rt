// Report 15, the layout of a DATASEC. Sums are in 64 bits, since an entry's offset and size pass 2^32 together.
ghost use Rattle.std.specs.Prelude.{◌≡◌, ◌&&◌, ◌||◌, ◌+◌, eqb, leb};
ghost use Rattle.paper.specs.terms.Reading.{record_in};
ghost use Rattle.layout.specs.Told.{section_told, recalled};

use crate::sized::covers;
use paper::{Place, TypeNo};
use rows::tail_words;
use views::View;

// Where the section's size is not 0, an entry begins where the one before ends or later, and ends inside.
pub fn placed(end: u32, free: u64, from: u32, size: u32) -> bool
    ensures { result ≡ (eqb end 0 || (leb free from && leb (from + size) end)) }
{
    if end == 0 {
        return true;
    }
    if (from as u64) < free {
        return false;
    }
    (from as u64) + (size as u64) <= end as u64
}

// The entries of a section. The words of the tail are counted, so that nothing is asked of its kind.
pub(crate) fn section_ok<'a>(
    base: &'a [u8],
    b: &'a [u8],
    index: &[u32],
    view: View,
    memo: &[u32],
    bytes: &[u8],
) -> bool
    ensures { result ≡ section_told (recalled base.now b.now index.now view memo.now) (record_in view.order bytes.now) }
{
    let order = view.order;
    let end = words::read(order, bytes, Place(8));
    let n = tail_words(words::read(order, bytes, Place(4))) / 3;
    let mut free: u64 = 0;
    for i in 0..n {
        let p = 12 + 12 * i;
        let order = view.order;
        let variable = TypeNo(words::read(order, bytes, Place(p)));
        let second = p + 4;
        let from = words::read(order, bytes, Place(second));
        let third = p + 8;
        let size = words::read(order, bytes, Place(third));
        if !covers(base, b, index, view, memo, variable, size) {
            return false;
        }
        if !placed(end, free, from, size) {
            return false;
        }
        free = (from as u64) + (size as u64);
    }
    true
}
