// Phase 5, the first sort of walk: by-value references are followed depth first, each once, with a mark for each type in the work slice.
ghost use Rattle.std.specs.Prelude.{◌≡◌, get_or};
ghost use Rattle.links.specs.Search.{AtRoot, ChainsOf, Followable, Followed, OnWay, MoveOf, Unsearched, done};
ghost use Rattle.paper.specs.rules.Chain.{held_by};
ghost use Rattle.paper.specs.rules.Table.{record_at};
ghost use Rattle.recall.specs.Recall.{mark_told};
ghost use Rattle.views.specs.Shown.{table_by};

use crate::held::next_open;
use paper::TypeNo;
use recall::mark_of;
use views::{View, record_of};

// How the search goes on: at a slot of a type; or a reference leads back into the way; or the root is finished. An enum of its own: the three
// are steps of one walk, and none refuses.
#[derive(Clone, Copy)]
enum Move {
    On(TypeNo, u32),
    Met,
    Finished,
}

// A type of which nothing is left has what is remembered of it for a mark, which is high. 0 is the mark of one not seen, 1 that of a root on
// its way; any other mark is 1 + SLOTS * the type that led here + the number of the slot behind the reference. No record has so many slots.
const SLOTS: u32 = 65536;

// One step, from slot j of type t on.
fn move_from<'a>(
    base: &'a [u8],
    b: &'a [u8],
    index: &[u32],
    view: View,
    t: TypeNo,
    j: u32,
    work: &mut [u32],
) -> Move
    requires { Followable (table_by base.now b.now index.now view) view.n work.old × OnWay view.n t.0 work.old }
    ensures { MoveOf (record_at (table_by base.now b.now index.now view) t.0) work.old t.0 j (mark_told work.old (table_by base.now b.now index.now view) (record_at (table_by base.now b.now index.now view) t.0)) work.new result }
{
    let from = t.0 as usize;
    let order = view.order;
    let bytes = record_of(base, b, index, view, t);
    match next_open(order, bytes, work, j) {
        None => {
            let mark = work[from];
            work[from] = mark_of(base, b, index, view, work, bytes);
            if mark == 1 {
                return Move::Finished;
            }
            let way = mark - 1;
            Move::On(TypeNo(way / SLOTS), way % SLOTS)
        }
        Some((u, k)) => {
            let to = u.0 as usize;
            let mark = work[to];
            if mark != 0 {
                return Move::Met;
            }
            work[to] = 1 + t.0 * SLOTS + k;
            Move::On(u, 0)
        }
    }
}

// Whether a root that was not seen leads to a ring; if not, all that it leads to is done.
fn follow<'a>(
    base: &'a [u8],
    b: &'a [u8],
    index: &[u32],
    view: View,
    root: TypeNo,
    work: &mut [u32],
) -> bool
    requires { AtRoot (table_by base.now b.now index.now view) view.n root.0 work.old × (get_or work.old root.0 0 ≡ 0) }
    ensures { Followed (held_by (table_by base.now b.now index.now view)) (done (table_by base.now b.now index.now view)) view.n root.0 work.new result }
{
    let mut t = root.0;
    let mut j: u32 = 0;
    work[t as usize] = 1;
    // A loop: a step goes on, goes back or ends the search, and no count says how many there are.
    loop {
        match move_from(base, b, index, view, TypeNo(t), j, work) {
            Move::On(u, k) => {
                t = u.0;
                j = k;
            }
            Move::Met => return true,
            Move::Finished => return false,
        }
    }
}

// The same of any root.
fn visit<'a>(
    base: &'a [u8],
    b: &'a [u8],
    index: &[u32],
    view: View,
    root: TypeNo,
    work: &mut [u32],
) -> bool
    requires { AtRoot (table_by base.now b.now index.now view) view.n root.0 work.old }
    ensures { Followed (held_by (table_by base.now b.now index.now view)) (done (table_by base.now b.now index.now view)) view.n root.0 work.new result }
{
    let at = root.0 as usize;
    if work[at] != 0 {
        return false;
    }
    follow(base, b, index, view, root, work)
}

// The smallest type that leads to a ring of this sort. Roots are taken in order, so that the first with a ring is the smallest.
pub(crate) fn chains<'a>(
    base: &'a [u8],
    b: &'a [u8],
    index: &[u32],
    view: View,
    work: &mut [u32],
) -> Option<TypeNo>
    requires { Unsearched (table_by base.now b.now index.now view) view.n work.old }
    ensures { ChainsOf (table_by base.now b.now index.now view) view.n result work.new }
{
    let n = view.n;
    for k in 0..n {
        let t = TypeNo(k + 1);
        if visit(base, b, index, view, t, work) {
            return Some(t);
        }
    }
    None
}
