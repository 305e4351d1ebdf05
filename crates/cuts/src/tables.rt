// The cut of the table that an index shows, of any bytes, any index and any number of types.
ghost use Rattle.std.specs.Prelude.{◌≡◌, false, true, [], ◌-◌, ◌≤◌, drop, take};
ghost use Rattle.cuts.specs.Sides.{ends_at, keeps_to};
ghost use Rattle.paper.specs.rules.Choice.{every};
ghost use Rattle.paper.specs.rules.Table.{count, every_word};
ghost use Rattle.parts.specs.Cut.{cut_ok};
ghost use Rattle.views.specs.Shown.{table_by};

use crate::records::{Cut, keeps};
use paper::{NameOff, TypeNo};
use views::{View, record_of, strings_in};

// The records behind type `from`, up to type `to`, keep to a side of the cut.
fn run_keeps(b: &[u8], index: &[u32], view: View, cut: Cut, from: u32, to: u32) -> bool
    requires { (from ≤ to) × (to ≤ view.n) }
    ensures { result ≡ every (every_word (keeps_to cut)) (take (to - from) (drop from (table_by [] b.now index.now view).records)) }
{
    let order = view.order;
    let none = &b[..0];
    for k in from..to {
        let t = TypeNo(k + 1);
        if !keeps(order, record_of(none, b, index, view, t), cut) {
            return false;
        }
    }
    true
}

// There are so many bytes of strings, and the last of them is a zero byte.
fn strings_end(strings: &[u8], end: NameOff) -> bool
    ensures { result ≡ ends_at strings.now end.0 }
{
    let s = end.0 as usize;
    if s == 0 {
        return false;
    }
    if strings.len() < s {
        return false;
    }
    strings[s - 1] == 0
}

// The table can be cut behind that type and that many bytes of strings.
pub fn cut_ok(b: &[u8], index: &[u32], view: View, types: TypeNo, strings: NameOff) -> bool
    ensures { result ≡ cut_ok types.0 strings.0 (table_by [] b.now index.now view) }
{
    let n = view.n;
    let last = types.0;
    if n < last {
        return false;
    }
    if !strings_end(strings_in(b), strings) {
        return false;
    }
    let before = Cut {
        types,
        strings,
        behind: false,
    };
    if !run_keeps(b, index, view, before, 0, last) {
        return false;
    }
    let behind = Cut {
        types,
        strings,
        behind: true,
    };
    run_keeps(b, index, view, behind, last, n)
}
