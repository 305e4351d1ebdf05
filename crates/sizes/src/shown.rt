// The same walk over the table that an index shows, which never gives 21 or 22: what phase 6 asks.
ghost use Rattle.std.specs.Prelude.{◌≡◌};
ghost use Rattle.paper.specs.rules.Answer.{sized_as_paper};
ghost use Rattle.paper.specs.rules.Size.{answer_of, exact_size, step_in};
ghost use Rattle.sizes.specs.SizeStep.{step_as_paper};
ghost use Rattle.views.specs.Shown.{table_by};

use crate::{Step, many, times};
use paper::{Place, Sized, TypeNo};
use rows::size_rule;
use views::{View, kind_at, word_of};

// What the record of a type says. Only the words that its rule asks for are read.
pub fn step_in(base: &[u8], b: &[u8], index: &[u32], view: View, t: TypeNo) -> Step
    ensures { step_as_paper result ≡ step_in (table_by base.now b.now index.now view) t.0 }
{
    let rule = size_rule(kind_at(base, b, index, view, t));
    match rule {
        1 => Step::Is(8),
        2 => Step::Is(word_of(base, b, index, view, t, Place(8))),
        3 => {
            let count = word_of(base, b, index, view, t, Place(20));
            let element = word_of(base, b, index, view, t, Place(12));
            Step::ManyOf(count, TypeNo(element))
        }
        4 => {
            let referent = word_of(base, b, index, view, t, Place(8));
            Step::ManyOf(1, TypeNo(referent))
        }
        _ => Step::Sizeless,
    }
}

// The exact size of a type of the table that an index shows. No more records are read than it has types.
pub fn size_in(base: &[u8], b: &[u8], index: &[u32], view: View, t: TypeNo) -> Sized
    ensures { sized_as_paper result ≡ answer_of (exact_size (table_by base.now b.now index.now view) t.0) }
{
    let mut at = t.0;
    let mut count: u64 = 1;
    for _ in 0..view.n {
        if at == 0 {
            return Sized::NoSize;
        }
        match step_in(base, b, index, view, TypeNo(at)) {
            Step::Is(s) => return many(count, s),
            Step::ManyOf(n, u) => {
                count = times(count, n);
                at = u.0;
            }
            Step::Sizeless => return Sized::NoSize,
            Step::Lost => return Sized::NoSize,
        }
    }
    Sized::NoSize
}
