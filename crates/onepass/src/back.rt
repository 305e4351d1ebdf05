// The pass from the last type to the first, for those that refer to later ones: their records are looked at once more.
ghost use Rattle.std.specs.Prelude.{length, true, ◌≡◌, ◌≤◌};
ghost use Rattle.glance.specs.Glance.{Glancing, SurelyGood, Went};
ghost use Rattle.onepass.specs.Forth.{Indexed, Through};
ghost use Rattle.paper.specs.rules.Header.{order_of};
ghost use Rattle.paper.specs.rules.Table.{count};
ghost use Rattle.paper.specs.rules.Walk.{table_of};

use glance::{STRANGE, is_open, look};
use paper::Order;
use words::rest_from;

// One more look at a type: 2 if it is settled then.
fn settle(order: Order, b: &[u8], index: &[u32], t: u32, work: &mut [u32]) -> u32
    requires { Indexed b.now (length index.now) (length work.old) index.now × Glancing (table_of b.now) (count (table_of b.now)) work.old × (order ≡ order_of b.now) × (1 ≤ t) × (t ≤ count (table_of b.now)) }
    ensures { Went (table_of b.now) (count (table_of b.now)) t work.old result work.new }
{
    let k = t as usize;
    if !is_open(work[k]) {
        return 2;
    }
    let place = index[k];
    let bytes = rest_from(b, place as usize);
    let s = look(order, bytes, work);
    if s == STRANGE {
        return 0;
    }
    if is_open(s) {
        return 0;
    }
    work[k] = s;
    2
}

// All types of which the pass forth has left some open: whether all are settled then.
pub(crate) fn back(order: Order, b: &[u8], index: &[u32], n: u32, work: &mut [u32]) -> bool
    requires { Through n b.now (length index.now) (length work.old) index.now work.old × (order ≡ order_of b.now) }
    ensures { result ≡ true → SurelyGood (table_of b.now) n }
{
    for k in 0..n {
        if settle(order, b, index, n - k, work) != 2 {
            return false;
        }
    }
    true
}
