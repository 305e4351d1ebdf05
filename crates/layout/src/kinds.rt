// Phase 6, report 15 of one type: by kind, the rule that speaks of it.
ghost use Rattle.std.specs.Prelude.{◌≡◌};
ghost use Rattle.layout.specs.Told.{layout_told, recalled};
ghost use Rattle.paper.specs.rules.Table.{record_at};
ghost use Rattle.views.specs.Shown.{table_by};

use crate::members::members_ok;
use crate::others::{array_ok, function_ok, tag_ok};
use crate::sections::section_ok;
use crate::sized::has_small_size;
use kindrows::{ARRAY, DATASEC, DECL_TAG, FUNC, STRUCT, UNION, VAR};
use paper::{Place, TypeNo};
use rows::kind_of;
use views::{View, record_of};

// The layout of a type keeps to the rules.
pub fn layout_ok<'a>(
    base: &'a [u8],
    b: &'a [u8],
    index: &[u32],
    view: View,
    memo: &[u32],
    t: TypeNo,
) -> bool
    ensures { result ≡ layout_told (recalled base.now b.now index.now view memo.now) (record_at (table_by base.now b.now index.now view) t.0) }
{
    let bytes = record_of(base, b, index, view, t);
    let order = view.order;
    match kind_of(words::read(order, bytes, Place(4))) {
        ARRAY => array_ok(base, b, index, view, memo, bytes),
        STRUCT => members_ok(base, b, index, view, memo, bytes),
        UNION => members_ok(base, b, index, view, memo, bytes),
        FUNC => function_ok(base, b, index, view, memo, bytes),
        VAR => has_small_size(
            base,
            b,
            index,
            view,
            memo,
            TypeNo(words::read(order, bytes, Place(8))),
        ),
        DATASEC => section_ok(base, b, index, view, memo, bytes),
        DECL_TAG => tag_ok(base, b, index, view, bytes),
        _ => true,
    }
}
