// Phase 5, report 14: "the smallest type from which a by-value walk, or a walk of this second sort, has n steps".
ghost use Rattle.std.specs.Prelude.{◌≡◌};
ghost use Rattle.links.specs.Search.{RingsOf, Unsearched, smaller_of};
ghost use Rattle.views.specs.Shown.{table_by};

use crate::chains::chains;
use crate::pointers::pointers;
use paper::TypeNo;
use scan::clear;
use views::View;

// The smaller of two, where there are two.
fn smaller(a: Option<TypeNo>, b: Option<TypeNo>) -> Option<TypeNo>
    ensures { result ≡ smaller_of a b }
{
    match a {
        None => b,
        Some(t) => match b {
            None => a,
            Some(u) => {
                if u.0 < t.0 {
                    return b;
                }
                a
            }
        },
    }
}

// What phase 5 says: the first of both sorts, each followed by itself over the whole table. By value is the last, since its marks stay.
pub(crate) fn rings<'a>(
    base: &'a [u8],
    b: &'a [u8],
    index: &[u32],
    view: View,
    work: &mut [u32],
) -> Option<TypeNo>
    requires { Unsearched (table_by base.now b.now index.now view) view.n work.old }
    ensures { RingsOf (table_by base.now b.now index.now view) view.n result work.new }
{
    let pointed = pointers(base, b, index, view, work);
    clear(work);
    smaller(chains(base, b, index, view, work), pointed)
}
