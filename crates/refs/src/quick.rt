// The common records whose references are good, told by the words that refer and by no row. What is not told here goes by the roles.
ghost use Rattle.std.specs.Prelude.{true, ◌≡◌};
ghost use Rattle.paper.specs.rules.Choice.{times};
ghost use Rattle.paper.specs.rules.Kind.{row_of, void_or_plain};
ghost use Rattle.paper.specs.rules.KindNo.{STRUCT};
ghost use Rattle.paper.specs.rules.References.{ref_ok, ref_word_ok, refs_ok};
ghost use Rattle.paper.specs.rules.Table.{vlen_in};
ghost use Rattle.paper.specs.rules.Word.{word_at};
ghost use Rattle.paper.specs.terms.Reading.{record_in, roled};
ghost use Rattle.views.specs.Shown.{table_by};

use crate::by_rule;
use paper::{Place, TypeNo};
use rows::vlen_of;
use views::{View, kind_at};

// The third word refers to void or a plain kind.
fn third_plain<'a>(base: &'a [u8], b: &'a [u8], index: &[u32], view: View, bytes: &[u8]) -> bool
    ensures { result ≡ ref_ok (table_by base.now b.now index.now view) void_or_plain (word_at view.order bytes.now 8) }
{
    let order = view.order;
    let t = words::read(order, bytes, Place(8));
    by_rule(0, t, kind_at(base, b, index, view, TypeNo(t)))
}

// Each member of a struct or a union is of a plain kind.
fn members_plain<'a>(
    base: &'a [u8],
    b: &'a [u8],
    index: &[u32],
    view: View,
    bytes: &[u8],
    info: u32,
) -> bool
    ensures { result ≡ roled view.order (ref_word_ok (table_by base.now b.now index.now view)) bytes.now 12 (times (vlen_in info) (row_of STRUCT).each) }
{
    let order = view.order;
    for i in 0..vlen_of(info) {
        let p = 12 + 12 * i;
        let t = words::read(order, bytes, Place(p + 4));
        if !by_rule(1, t, kind_at(base, b, index, view, TypeNo(t))) {
            return false;
        }
    }
    true
}

// Every reference of the record is good, for sure. A whole info word, or its upper half where a count is the lower, says which words refer.
pub(crate) fn sure<'a>(base: &'a [u8], b: &'a [u8], index: &[u32], view: View, bytes: &[u8]) -> bool
    ensures { result ≡ true → true ≡ refs_ok (table_by base.now b.now index.now view) (record_in view.order bytes.now) }
{
    let order = view.order;
    let info = words::read(order, bytes, Place(4));
    match info {
        // INT, FWD of a struct, FLOAT, FWD of a union
        0x0100_0000 | 0x0700_0000 | 0x1000_0000 | 0x8700_0000 => true,
        // PTR, TYPEDEF, VOLATILE, CONST, RESTRICT
        0x0200_0000 | 0x0800_0000 | 0x0900_0000 | 0x0a00_0000 | 0x0b00_0000 => third_plain(
            base, b, index, view, bytes,
        ),
        _ => match info / 65536 {
            // STRUCT and UNION, with a kind_flag or without
            0x0400 | 0x0500 | 0x8400 | 0x8500 => members_plain(base, b, index, view, bytes, info),
            _ => false,
        },
    }
}
