// The check of a table against a base: the base by itself, the two orders, phases 1 and 2 behind it, then the phases over both.
ghost use Rattle.std.specs.Prelude.{length};
ghost use Rattle.lean.specs.Leans.{AfterBase, LeanAnswer, LeanOf};

use gate::check;
use header::other_opening;
use paper::LeanError;
use phases::judge;
use scan::{clear, scan_behind};
use views::View;

// What phases 1 and 2 behind a base of n types and then the phases over both say.
fn behind<'a>(
    base: &'a [u8],
    own: &'a [u8],
    n: u32,
    index: &mut [u32],
    work: &mut [u32],
) -> Result<u32, LeanError>
    requires { AfterBase base.now own.now n index.old (length index.old) (length work.old) }
    ensures { LeanAnswer result base.now own.now (length index.old) (length work.old) index.new }
{
    let m = scan_behind(base.len(), own, n, index, work.len()).map_err(LeanError::Refused)?;
    let order = words::order_of(own);
    let before = n as u16;
    let view = View {
        n: m,
        before,
        order,
    };
    match judge(base, own, index, view, work) {
        Ok(()) => Ok(m),
        Err(r) => {
            clear(index);
            Err(LeanError::Refused(r))
        }
    }
}

// What is answered, and what the index then holds; the work slice may hold anything.
fn answer<'a>(
    base: &'a [u8],
    own: &'a [u8],
    index: &mut [u32],
    work: &mut [u32],
) -> Result<u32, LeanError>
    ensures { LeanAnswer result base.now own.now (length index.old) (length work.old) index.new }
{
    let n = check(base, index, work).map_err(LeanError::BaseRefused)?;
    if other_opening(base, own) {
        clear(index);
        return Err(LeanError::OrdersDiffer);
    }
    behind(base, own, n, index, work)
}

// The count of both tables' types, where the second meets the paper over both together, with the place of each record in the blob that holds
// it; else 25 with the base's report, 26, or its own report, with the index all 0. The work slice ends all 0.
pub fn check_leaning<'a>(
    base: &'a [u8],
    own: &'a [u8],
    index: &mut [u32],
    work: &mut [u32],
) -> Result<u32, LeanError>
    ensures { LeanOf result base.now own.now (length index.old) (length work.old) index.new work.new }
{
    let told = answer(base, own, index, work);
    clear(work); // a table that is refused before phase 3 leaves it as it was lent
    told
}
