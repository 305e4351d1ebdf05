// 40 comes first: a section is looked at beside an accepted table alone.
ghost use Rattle.std.specs.Prelude.{length};
ghost use Rattle.ext.specs.Extends.{BesideOf, ExtOf};

use exts::ExtError;
use gate::check;
use groups::judge;
use views::View;

// What the section is beside the table of n types that the index shows.
fn beside(b: &[u8], index: &[u32], n: u32, s: &[u8]) -> Result<(), ExtError>
    ensures { BesideOf result b.now index.now n s.now }
{
    let order = words::order_of(b);
    let view = View {
        n,
        before: 0,
        order,
    };
    judge(b, index, view, s).map_err(ExtError::Refused)
}

// 0 and nothing else where the section `s` is accepted beside the table `b`; else 40 with the table's report, or 41 to 48. Both u32 slices end
// as the check of the table leaves them.
pub fn check_ext(b: &[u8], s: &[u8], index: &mut [u32], work: &mut [u32]) -> Result<(), ExtError>
    ensures { ExtOf result b.now s.now (length index.old) (length work.old) index.new work.new }
{
    let n = check(b, index, work).map_err(ExtError::TableRefused)?;
    beside(b, index, n, s)
}
