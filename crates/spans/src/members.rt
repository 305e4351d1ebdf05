// The span of a member of a table that an index shows, from its type and its offset word.
ghost use Rattle.std.specs.Prelude.{◌≡◌};
ghost use Rattle.paper.specs.rules.Span.{ends_by, span_of};
ghost use Rattle.spans.specs.Spanned.{span_as_paper, typed};
ghost use Rattle.views.specs.Shown.{table_by};

use crate::bases::base_record;
use crate::span_with;
use paper::{Sized, TypeNo};
use sizes::size_in;
use views::View;

// "a member must have a size", which may not overflow; then its base says which bits it takes.
pub fn member_span<'a>(
    base: &'a [u8],
    b: &'a [u8],
    index: &[u32],
    view: View,
    flag: u32,
    t: TypeNo,
    offset: u32,
) -> Option<(u64, u64)>
    ensures { span_as_paper result ≡ span_of (table_by base.now b.now index.now view) flag (typed t.0 offset) }
{
    let order = view.order;
    match size_in(base, b, index, view, t) {
        Sized::Exact(s) => {
            let under = base_record(base, b, index, view, t);
            span_with(order, under, flag, offset, s)
        }
        Sized::NoSize => None,
        Sized::Overflow => None,
        Sized::Lost => None,
        Sized::TooFar => None,
    }
}

// A span ends by a bit; no sum, so that none can wrap.
pub fn span_ends(span: Option<(u64, u64)>, end: u64) -> bool
    ensures { result ≡ ends_by end (span_as_paper span) }
{
    match span {
        None => false,
        Some((from, bits)) => {
            if end < bits {
                return false;
            }
            from <= end - bits
        }
    }
}
