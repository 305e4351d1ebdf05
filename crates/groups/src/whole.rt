// A whole section beside the table that an index shows.
ghost use Rattle.std.specs.Prelude.{◌≡◌, [], ◌≤◌, take};
ghost use Rattle.exts.specs.Ext.{judged_number, section_fault};
ghost use Rattle.groups.specs.Fronts.{parts_fault};
ghost use Rattle.views.specs.Shown.{table_by};

use crate::front::{Front, opens_as, read_front};
use crate::walk::judge_part;
use exts::{Fault, Sort};
use paper::BYTE_LIMIT;
use views::{View, strings_in};

// The parts that begin and end there: "the first part, group or record at fault from the front".
fn judge_parts(b: &[u8], index: &[u32], view: View, s: &[u8], front: Front) -> Result<(), Fault>
    requires { (front.lines ≤ 1000000) × (front.relocations ≤ 1000000) × (front.end ≤ 1000000) }
    ensures { judged_number result ≡ parts_fault (table_by [] b.now index.now view) s.now front.functions front.lines front.relocations front.end }
{
    let strings = strings_in(b).len();
    judge_part(
        b,
        index,
        view,
        strings,
        s,
        Sort::Function,
        front.functions,
        front.lines,
    )?;
    judge_part(
        b,
        index,
        view,
        strings,
        s,
        Sort::Line,
        front.lines,
        front.relocations,
    )?;
    judge_part(
        b,
        index,
        view,
        strings,
        s,
        Sort::Relocation,
        front.relocations,
        front.end,
    )
}

// 41 to 48, of any bytes beside the table that any index shows.
pub fn judge(b: &[u8], index: &[u32], view: View, s: &[u8]) -> Result<(), Fault>
    ensures { judged_number result ≡ section_fault (take 4 b.now) (table_by [] b.now index.now view) s.now }
{
    if s.len() < 24 {
        return Err(Fault::Length);
    }
    if BYTE_LIMIT < s.len() {
        return Err(Fault::Length);
    }
    if !opens_as(b, s) {
        return Err(Fault::Opening);
    }
    let front = read_front(s)?;
    judge_parts(b, index, view, s, front)
}
