// What is to be remembered of a type, by what is told of those that it leads to.
ghost use Rattle.std.specs.Prelude.{◌≡◌};
ghost use Rattle.paper.specs.terms.Reading.{record_in};
ghost use Rattle.recall.specs.Recall.{code_told, mark_told, named_code, size_told};
ghost use Rattle.recall.specs.Recall as recall;
ghost use Rattle.views.specs.Shown.{table_by};

use crate::named::all_named;
use crate::telling::{FIRST_TELLING, HALF_SIZE, MOST_TOLD, base_told, end_told, size_told};
use kindrows::FUNC_PROTO;
use paper::{Order, Place, Sized, TypeNo};
use rows::{is_alias, kind_of};
use sizes::{Step, step_words};
use views::View;

// An element's size, as far as it matters.
fn element_code<'a>(
    base: &'a [u8],
    b: &'a [u8],
    index: &[u32],
    view: View,
    memo: &[u32],
    t: TypeNo,
) -> u32
    ensures { result ≡ recall.size_code (size_told memo.now (table_by base.now b.now index.now view) t.0) }
{
    match size_told(base, b, index, view, memo, t) {
        Sized::Exact(s) => {
            if s <= HALF_SIZE {
                return s;
            }
            HALF_SIZE
        }
        Sized::NoSize => HALF_SIZE + 1,
        Sized::Overflow => HALF_SIZE,
        Sized::Lost => 0,
        Sized::TooFar => 0,
    }
}

// Whether a prototype leaves a parameter without a name.
fn named_code(order: Order, bytes: &[u8]) -> u32
    ensures { result ≡ named_code (record_in order bytes.now) }
{
    if kind_of(words::read(order, bytes, Place(4))) != FUNC_PROTO {
        return 0;
    }
    if all_named(order, bytes) {
        return 0;
    }
    1
}

// What is to be remembered of the record that some bytes begin with.
fn code_of<'a>(
    base: &'a [u8],
    b: &'a [u8],
    index: &[u32],
    view: View,
    memo: &[u32],
    bytes: &[u8],
) -> u32
    ensures { result ≡ code_told memo.now (table_by base.now b.now index.now view) (record_in view.order bytes.now) }
{
    let order = view.order;
    match step_words(order, bytes) {
        Step::ManyOf(n, u) => {
            if is_alias(kind_of(words::read(order, bytes, Place(4)))) {
                return base_told(base, b, index, view, memo, u).0;
            }
            if n == 1 {
                return end_told(base, b, index, view, memo, u).0;
            }
            element_code(base, b, index, view, memo, u)
        }
        Step::Is(_) => named_code(order, bytes),
        Step::Sizeless => named_code(order, bytes),
        Step::Lost => named_code(order, bytes),
    }
}

// Its mark. No table that is searched has a code that would pass 32 bits.
pub fn mark_of<'a>(
    base: &'a [u8],
    b: &'a [u8],
    index: &[u32],
    view: View,
    memo: &[u32],
    bytes: &[u8],
) -> u32
    ensures { result ≡ mark_told memo.now (table_by base.now b.now index.now view) (record_in view.order bytes.now) }
{
    let code = code_of(base, b, index, view, memo, bytes);
    if MOST_TOLD < code {
        return FIRST_TELLING;
    }
    FIRST_TELLING + code
}
