// Phase 5, the second sort of walk: over PTR, TYPEDEF, VOLATILE, CONST, RESTRICT and TYPE_TAG. A type leads to one type at most, so
// there is no way back to keep: a walk is a line, and each type is entered once, for the first root that comes to it.
ghost use Rattle.std.specs.Prelude.{◌≡◌, []};
ghost use Rattle.links.specs.Search.{Unsearched, ring_as_paper, rings_by};
ghost use Rattle.links.specs.Trail.{AtTrail, Trailed};
ghost use Rattle.paper.specs.rules.Chain.{is_link, pointed_by, step_to};
ghost use Rattle.paper.specs.rules.Gate.{over_types};
ghost use Rattle.views.specs.Shown.{table_by};

use kindrows::PTR;
use paper::{Place, TypeNo};
use rows::{is_alias, kind_of};
use views::{View, record_of};

// One of the six kinds.
fn is_link(kind: u32) -> bool
    ensures { result ≡ is_link kind }
{
    if kind == PTR {
        return true;
    }
    is_alias(kind)
}

// The type that a type leads to; 0 for none.
fn pointed<'a>(base: &'a [u8], b: &'a [u8], index: &[u32], view: View, t: TypeNo) -> TypeNo
    ensures { pointed_by (table_by base.now b.now index.now view) t.0 ≡ step_to result.0 [] }
{
    let s = record_of(base, b, index, view, t);
    let order = view.order;
    if is_link(kind_of(words::read(order, s, Place(4)))) {
        return TypeNo(words::read(order, s, Place(8)));
    }
    TypeNo(0)
}

// Whether a root leads to a ring. The types on its line get its number for a mark: one that has it already is on the ring.
fn trail<'a>(
    base: &'a [u8],
    b: &'a [u8],
    index: &[u32],
    view: View,
    root: TypeNo,
    work: &mut [u32],
) -> bool
    requires { AtTrail (table_by base.now b.now index.now view) view.n root.0 work.old }
    ensures { Trailed (pointed_by (table_by base.now b.now index.now view)) view.n root.0 work.new result }
{
    let mut t = root.0;
    // A loop: each type says which is next, until one is marked or leads nowhere.
    loop {
        let at = t as usize;
        let mark = work[at];
        if mark != 0 {
            return mark == root.0;
        }
        work[at] = root.0;
        let u = pointed(base, b, index, view, TypeNo(t));
        if u.0 == 0 {
            return false;
        }
        t = u.0;
    }
}

// The smallest type that leads to a ring of this sort, if there is one.
pub(crate) fn pointers<'a>(
    base: &'a [u8],
    b: &'a [u8],
    index: &[u32],
    view: View,
    work: &mut [u32],
) -> Option<TypeNo>
    requires { Unsearched (table_by base.now b.now index.now view) view.n work.old }
    ensures { ring_as_paper (table_by base.now b.now index.now view) result ≡ over_types (rings_by pointed_by) (table_by base.now b.now index.now view) }
{
    for k in 0..view.n {
        let t = TypeNo(k + 1);
        if trail(base, b, index, view, t, work) {
            return Some(t);
        }
    }
    None
}
