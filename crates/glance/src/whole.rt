// One look at each type, from the first to the last, and once more from the last to the first for those that refer to later ones.
ghost use Rattle.std.specs.Prelude.{◌≡◌, cond, true, ◌+◌, ◌-◌, ◌≤◌, ◌<◌};
ghost use Rattle.glance.specs.Glance.{All, Glancing, SurelyGood, Went};
ghost use Rattle.views.specs.Shown.{table_by};

use crate::looks::{AWAITING, STRANGE, is_open, look};
use paper::{TYPE_LIMIT, TypeNo};
use scan::clear;
use views::{View, record_of};

// One look at a type: 2 if it is settled then, 1 if it is open, 0 if it will stay so.
fn settle<'a>(
    base: &'a [u8],
    b: &'a [u8],
    index: &[u32],
    view: View,
    t: TypeNo,
    work: &mut [u32],
) -> u32
    requires { Glancing (table_by base.now b.now index.now view) view.n work.old × (1 ≤ t.0) × (t.0 ≤ view.n) }
    ensures { Went (table_by base.now b.now index.now view) view.n t.0 work.old result work.new }
{
    let at = t.0 as usize;
    if !is_open(work[at]) {
        return 2;
    }
    let bytes = record_of(base, b, index, view, t);
    let order = view.order;
    let s = look(order, bytes, work);
    if s == STRANGE {
        return 0;
    }
    if s == 0 {
        return 1;
    }
    work[at] = s;
    if s == AWAITING {
        return 1;
    }
    2
}

// The type behind so many, from the last or from the first.
fn type_behind(back: bool, n: u32, k: u32) -> u32
    requires { k < n }
    ensures { result ≡ cond back (n - k) (k + 1) }
{
    if back {
        return n - k;
    }
    k + 1
}

// One look at each type: 2 if all are settled then, 0 if one will stay open.
fn sweep<'a>(
    base: &'a [u8],
    b: &'a [u8],
    index: &[u32],
    view: View,
    back: bool,
    work: &mut [u32],
) -> u32
    requires { Glancing (table_by base.now b.now index.now view) view.n work.old }
    ensures { Glancing (table_by base.now b.now index.now view) view.n work.new × (result ≡ 2 → All view.n work.new) }
{
    let n = view.n;
    let mut all: u32 = 2;
    for k in 0..n {
        let t = type_behind(back, n, k);
        let went = settle(base, b, index, view, TypeNo(t), work);
        if went == 0 {
            return 0;
        }
        if went != 2 {
            all = 1;
        }
    }
    all
}

// Whether a table of no more types than the paper allows, with a place for each in the work slice, is good for sure. The work slice may
// hold anything.
pub fn glance<'a>(base: &'a [u8], b: &'a [u8], index: &[u32], view: View, work: &mut [u32]) -> bool
    ensures { result ≡ true → SurelyGood (table_by base.now b.now index.now view) view.n }
{
    let n = view.n;
    if TYPE_LIMIT < n {
        return false;
    }
    if work.len() <= n as usize {
        return false;
    }
    clear(work);
    let first = sweep(base, b, index, view, false, work);
    if first == 2 {
        return true;
    }
    if first == 0 {
        return false;
    }
    sweep(base, b, index, view, true, work) == 2
}
