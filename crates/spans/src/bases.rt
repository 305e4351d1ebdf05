// The base of a type: "Follow TYPEDEF, qualifiers and TYPE_TAG to a base".
ghost use Rattle.std.specs.Prelude.{◌≡◌};
ghost use Rattle.paper.specs.terms.Reading.{record_in};
ghost use Rattle.paper.specs.rules.Span.{base_of};
ghost use Rattle.views.specs.Shown.{table_by};

use paper::{Place, TypeNo};
use rows::{is_alias, kind_of};
use views::{View, kind_at, record_of, word_of};

// The record of the base, along the aliases. No chain of them is longer than there are types, so that many steps are enough.
fn base_along<'a>(base: &'a [u8], b: &'a [u8], index: &[u32], view: View, t: TypeNo) -> &'a [u8]
    ensures { record_in view.order result.now ≡ base_of (table_by base.now b.now index.now view) t.0 }
{
    let mut at = t.0;
    for _ in 0..view.n {
        if !is_alias(kind_at(base, b, index, view, TypeNo(at))) {
            return record_of(base, b, index, view, TypeNo(at));
        }
        at = word_of(base, b, index, view, TypeNo(at), Place(8));
    }
    record_of(base, b, index, view, TypeNo(at))
}

// The record of the base. Most types are their own: such a record is looked for once, and not for its kind first.
pub fn base_record<'a>(
    base: &'a [u8],
    b: &'a [u8],
    index: &[u32],
    view: View,
    t: TypeNo,
) -> &'a [u8]
    ensures { record_in view.order result.now ≡ base_of (table_by base.now b.now index.now view) t.0 }
{
    let order = view.order;
    let own = record_of(base, b, index, view, t);
    if !is_alias(kind_of(words::read(order, own, Place(4)))) {
        return own;
    }
    base_along(base, b, index, view, t)
}
