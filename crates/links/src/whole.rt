// Both phases: a walk of n steps means a ring only where no reference leaves the table, so phase 5 stands behind phase 4.
ghost use Rattle.std.specs.Prelude.{◌≡◌, length};
ghost use Rattle.links.specs.Links.{BothOf, LinksOf, linked_as_paper};
ghost use Rattle.paper.specs.rules.Gate.{over_types, phase4};
ghost use Rattle.views.specs.Shown.{table_by};

use crate::rings::rings;
use paper::{TYPE_LIMIT, TypeNo};
use refs::refs_ok;
use scan::clear;
use views::{View, record_of};

// Why the references of a table do not stand: the smallest type with a bad one, or else the smallest with an endless walk.
#[derive(Clone, Copy)]
pub enum Unlinked {
    Reference(TypeNo),
    Endless(TypeNo),
}

// Phase 4: the smallest type with a bad reference.
fn bad<'a>(base: &'a [u8], b: &'a [u8], index: &[u32], view: View) -> Result<(), Unlinked>
    ensures { linked_as_paper (table_by base.now b.now index.now view) result ≡ over_types phase4 (table_by base.now b.now index.now view) }
{
    for k in 0..view.n {
        let t = TypeNo(k + 1);
        let bytes = record_of(base, b, index, view, t);
        if !refs_ok(base, b, index, view, bytes) {
            return Err(Unlinked::Reference(t));
        }
    }
    Ok(())
}

// What both phases say. Where that is something, the work slice may hold anything.
fn both<'a>(
    base: &'a [u8],
    b: &'a [u8],
    index: &[u32],
    view: View,
    work: &mut [u32],
) -> Result<(), Unlinked>
    ensures { BothOf (table_by base.now b.now index.now view) view.n (length work.old) result work.new }
{
    let n = view.n;
    if TYPE_LIMIT < n {
        clear(work);
        return Ok(());
    }
    if work.len() <= n as usize {
        clear(work);
        return Ok(());
    }
    bad(base, b, index, view)?;
    clear(work);
    match rings(base, b, index, view, work) {
        None => Ok(()),
        Some(t) => Err(Unlinked::Endless(t)),
    }
}

// What both phases say of a table of no more types than the paper allows, where the work slice has a place for each; nothing of
// another. Where nothing is wrong, the work slice has what is remembered of each type; else it is all 0.
pub fn links<'a>(
    base: &'a [u8],
    b: &'a [u8],
    index: &[u32],
    view: View,
    work: &mut [u32],
) -> Result<(), Unlinked>
    ensures { LinksOf (table_by base.now b.now index.now view) view.n (length work.old) result work.new }
{
    let said = both(base, b, index, view, work);
    match said {
        Ok(()) => {}
        Err(_) => clear(work), // phase 4 leaves it as it was lent, phase 5 leaves its marks
    }
    said
}
