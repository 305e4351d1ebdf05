// The check: in one pass, or phases 1 and 2 by `scan`, then 3 to 6; and what is left in both lent slices.
ghost use Rattle.std.specs.Prelude.{length};
ghost use Rattle.gate.specs.Check.{AnswerOf, CheckOf};
ghost use Rattle.onepass.specs.Pass.{ReadOf};

use onepass::{Sure, pass};
use paper::Report;
use phases::{judge, later};
use scan::{clear, scan};
use views::View;

// What the phases answer one after the other, and what the index then holds; the work slice may hold anything.
fn by_phases(b: &[u8], index: &mut [u32], work: &mut [u32]) -> Result<u32, Report>
    ensures { AnswerOf result b.now (length index.old) (length work.old) index.new }
{
    let n = match scan(b, index, work.len()) {
        Ok(n) => n,
        // no `?`: on an arm a wrong report can be planted alone (must-fail/check_one_report.edit)
        Err(r) => return Err(r),
    };
    let order = words::order_of(b);
    match judge(
        &b[..0],
        b,
        index,
        View {
            n,
            order,
            before: 0,
        },
        work,
    ) {
        Ok(()) => Ok(n), // no phase speaks
        Err(r) => {
            clear(index);
            Err(r)
        }
    }
}

// What phases 4 to 6 answer of a table of which the others have nothing to say.
fn by_later(b: &[u8], n: u32, index: &mut [u32], work: &mut [u32]) -> Result<u32, Report>
    requires { ReadOf n b.now (length index.old) (length work.old) index.old }
    ensures { AnswerOf result b.now (length index.old) (length work.old) index.new }
{
    let order = words::order_of(b);
    match later(
        &b[..0],
        b,
        index,
        View {
            n,
            order,
            before: 0,
        },
        work,
    ) {
        Ok(()) => Ok(n), // nor do these
        Err(r) => {
            clear(index); // a type that is wrong after all
            Err(r)
        }
    }
}

// The same. Most good tables are told in one pass; of any other the phases speak, all of them or those that are left.
fn answer(b: &[u8], index: &mut [u32], work: &mut [u32]) -> Result<u32, Report>
    ensures { AnswerOf result b.now (length index.old) (length work.old) index.new }
{
    match pass(b, index, work) {
        Sure::Good(n) => Ok(n),
        Sure::Read(n) => by_later(b, n, index, work),
        Sure::Unsure => by_phases(b, index, work),
    }
}

// The count of types of a table that meets the paper, with the places of its records in the index; else the report, with
// the index all 0. The work slice ends all 0.
pub fn check(b: &[u8], index: &mut [u32], work: &mut [u32]) -> Result<u32, Report>
    ensures { CheckOf result b.now (length index.old) (length work.old) index.new work.new }
{
    let told = answer(b, index, work);
    clear(work); // a table that is refused before phase 4 leaves it as it was lent
    told
}
