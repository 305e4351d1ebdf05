// Phases 3 to 6 one after the other.
ghost use Rattle.std.specs.Prelude.{length, ◌≡◌, ◌<◌, ◌≤◌};
ghost use Rattle.paper.specs.rules.Limits.{type_limit};
ghost use Rattle.phases.specs.Said.{JudgeOf, LaterOf, behind_third, said_as_paper};

use crate::types::{sixth, third};
use glance::glance;
use links::{Unlinked, links};
use paper::{Report, TYPE_LIMIT};
use scan::clear;
use views::{View, place_of};

// What phases 4 to 6 say; the work slice may hold anything. Phase 6 asks of the slice what phase 5 has left there.
fn behind<'a>(
    base: &'a [u8],
    b: &'a [u8],
    index: &[u32],
    view: View,
    work: &mut [u32],
) -> Result<(), Report>
    requires { (view.n ≤ type_limit) × (view.n < length work.old) }
    ensures { said_as_paper result ≡ behind_third base.now b.now index.now view }
{
    match links(base, b, index, view, work) {
        Ok(()) => sixth(base, b, index, view, work),
        Err(Unlinked::Reference(t)) => Err(Report::Reference(t, place_of(index, view, t))),
        Err(Unlinked::Endless(t)) => Err(Report::Endless(t, place_of(index, view, t))),
    }
}

// What phases 4 to 6 say, one after the other. Of more types than the limit, or than the work slice has places for, nothing. The work slice
// ends all 0.
pub fn later<'a>(
    base: &'a [u8],
    b: &'a [u8],
    index: &[u32],
    view: View,
    work: &mut [u32],
) -> Result<(), Report>
    ensures { LaterOf base.now b.now index.now view (length work.old) result work.new }
{
    let n = view.n;
    if TYPE_LIMIT < n {
        clear(work);
        return Ok(());
    }
    if work.len() <= n as usize {
        clear(work);
        return Ok(());
    }
    let said = behind(base, b, index, view, work);
    clear(work); // what is remembered ends with phase 6
    said
}

// What phases 3 to 6 say: the earliest speaks. Of more types than the limit, or than the work slice has places for, phase 3 alone speaks.
// The work slice ends all 0. Most good tables are told at a glance.
pub fn judge<'a>(
    base: &'a [u8],
    b: &'a [u8],
    index: &[u32],
    view: View,
    work: &mut [u32],
) -> Result<(), Report>
    ensures { JudgeOf base.now b.now index.now view (length work.old) result work.new }
{
    match third(base, b, index, view) {
        Ok(()) => {}
        Err(r) => {
            clear(work);
            return Err(r);
        }
    }
    if glance(base, b, index, view, work) {
        clear(work);
        return Ok(());
    }
    later(base, b, index, view, work)
}
