// Phases 3 and 6 over the types in order, reports 10 to 12 and 15: the smallest number of the smallest type.
ghost use Rattle.std.specs.Prelude.{◌≡◌};
ghost use Rattle.phases.specs.Said.{over_shown, phase3_by, phase6_told, said_as_paper};
ghost use Rattle.paper.specs.rules.Choice.{first_due};
ghost use Rattle.paper.specs.rules.Gate.{naming_at};
ghost use Rattle.paper.specs.rules.Header.{strings_in};
ghost use Rattle.views.specs.Shown.{place_by, table_by};

use layout::layout_ok;
use paper::{Report, TypeNo};
use rules::Due;
use views::{View, place_of, record_of, strings_in};

// What phase 3 says of one type, with both string sections.
fn heads_at<'a>(
    base: &'a [u8],
    b: &'a [u8],
    index: &[u32],
    view: View,
    before: &'a [u8],
    strings: &'a [u8],
    t: TypeNo,
) -> Result<(), Report>
    ensures { said_as_paper result ≡ naming_at t.0 (place_by index.now view t.0) (first_due (phase3_by before.now strings.now (table_by base.now b.now index.now view) t.0)) }
{
    let at = place_of(index, view, t);
    let order = view.order;
    match rules::phase3(order, record_of(base, b, index, view, t), before, strings) {
        None => Ok(()),
        Some(Due::Head) => Err(Report::Head(t, at)),
        Some(Due::Named) => Err(Report::Named(t, at)),
        Some(Due::Tail) => Err(Report::Tail(t, at)),
    }
}

// What phase 6 says of one type, by what the slice tells.
fn layout_at<'a>(
    base: &'a [u8],
    b: &'a [u8],
    index: &[u32],
    view: View,
    memo: &[u32],
    t: TypeNo,
) -> Result<(), Report>
    ensures { said_as_paper result ≡ naming_at t.0 (place_by index.now view t.0) (first_due (phase6_told memo.now (table_by base.now b.now index.now view) t.0)) }
{
    if layout_ok(base, b, index, view, memo, t) {
        return Ok(());
    }
    Err(Report::Layout(t, place_of(index, view, t)))
}

// Phase 3.
pub(crate) fn third<'a>(
    base: &'a [u8],
    b: &'a [u8],
    index: &[u32],
    view: View,
) -> Result<(), Report>
    ensures { said_as_paper result ≡ over_shown base.now b.now index.now view (phase3_by (strings_in base.now) (strings_in b.now)) }
{
    let before = strings_in(base);
    let strings = strings_in(b);
    for k in 0..view.n {
        let t = TypeNo(k + 1);
        heads_at(base, b, index, view, before, strings, t)?;
    }
    Ok(())
}

// Phase 6, by what the slice tells.
pub(crate) fn sixth<'a>(
    base: &'a [u8],
    b: &'a [u8],
    index: &[u32],
    view: View,
    memo: &[u32],
) -> Result<(), Report>
    ensures { said_as_paper result ≡ over_shown base.now b.now index.now view (phase6_told memo.now) }
{
    for k in 0..view.n {
        let t = TypeNo(k + 1);
        layout_at(base, b, index, view, memo, t)?;
    }
    Ok(())
}
