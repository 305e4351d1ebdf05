// Report 15, arrays, functions and tags.
ghost use Rattle.std.specs.Prelude.{◌≡◌};
ghost use Rattle.layout.specs.Told.{array_told, function_told, recalled};
ghost use Rattle.paper.specs.rules.KindNo.{ARRAY, DECL_TAG};
ghost use Rattle.paper.specs.rules.Layout.{components_of, tag_ok};
ghost use Rattle.paper.specs.terms.Reading.{record_in};
ghost use Rattle.paper.specs.rules.Table.{kind_of};
ghost use Rattle.views.specs.Shown.{table_by};

use crate::sized::has_size;
use kindrows::{FUNC, FUNC_PROTO, STRUCT, UNION};
use paper::{Place, TypeNo};
use recall::{all_named, told};
use rows::{kind_of, vlen_of};
use spans::is_regular;
use views::{View, record_of};

// "An array element must have a size"; "An array index INT is regular".
pub(crate) fn array_ok<'a>(
    base: &'a [u8],
    b: &'a [u8],
    index: &[u32],
    view: View,
    memo: &[u32],
    bytes: &[u8],
) -> bool
    requires { kind_of (record_in view.order bytes.now) ≡ ARRAY }
    ensures { result ≡ array_told (recalled base.now b.now index.now view memo.now) (record_in view.order bytes.now) }
{
    let order = view.order;
    if !has_size(
        base,
        b,
        index,
        view,
        memo,
        TypeNo(words::read(order, bytes, Place(12))),
    ) {
        return false;
    }
    let by = record_of(
        base,
        b,
        index,
        view,
        TypeNo(words::read(order, bytes, Place(16))),
    );
    is_regular(order, by)
}

// "A FUNC's prototype names every parameter but a last 0/0": the slice tells of a prototype, which was judged once.
pub(crate) fn function_ok<'a>(
    base: &'a [u8],
    b: &'a [u8],
    index: &[u32],
    view: View,
    memo: &[u32],
    bytes: &[u8],
) -> bool
    ensures { result ≡ function_told (recalled base.now b.now index.now view memo.now) (record_in view.order bytes.now) }
{
    let order = view.order;
    let t = TypeNo(words::read(order, bytes, Place(8)));
    let proto = record_of(base, b, index, view, t);
    if kind_of(words::read(order, proto, Place(4))) == FUNC_PROTO {
        return told(memo, t) == 0;
    }
    all_named(order, proto)
}

// How many components a tag can point at.
fn components_of<'a>(base: &'a [u8], b: &'a [u8], index: &[u32], view: View, target: &[u8]) -> u32
    ensures { result ≡ components_of (table_by base.now b.now index.now view) (record_in view.order target.now) }
{
    let order = view.order;
    let info = words::read(order, target, Place(4));
    let kind = kind_of(info);
    if kind == STRUCT {
        return vlen_of(info);
    }
    if kind == UNION {
        return vlen_of(info);
    }
    if kind != FUNC {
        return 0;
    }
    let proto = record_of(
        base,
        b,
        index,
        view,
        TypeNo(words::read(order, target, Place(8))),
    );
    vlen_of(words::read(order, proto, Place(4)))
}

// "DECL_TAG component: all ones, or below the member count, or below a FUNC's parameter count".
pub(crate) fn tag_ok<'a>(
    base: &'a [u8],
    b: &'a [u8],
    index: &[u32],
    view: View,
    bytes: &[u8],
) -> bool
    requires { kind_of (record_in view.order bytes.now) ≡ DECL_TAG }
    ensures { result ≡ tag_ok (table_by base.now b.now index.now view) (record_in view.order bytes.now) }
{
    let order = view.order;
    let component = words::read(order, bytes, Place(12));
    if component == 4294967295 {
        return true;
    }
    let target = record_of(
        base,
        b,
        index,
        view,
        TypeNo(words::read(order, bytes, Place(8))),
    );
    component < components_of(base, b, index, view, target)
}
