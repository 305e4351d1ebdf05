// What a slice tells of a type: its base, the type whose size it has, and that size, each in a few steps, however long the chain.
ghost use Rattle.std.specs.Prelude.{◌≡◌, ◌*◌};
ghost use Rattle.std.proofs.Math.Option.{some};
ghost use Rattle.paper.specs.rules.Answer.{sized_as_paper};
ghost use Rattle.paper.specs.rules.Size.{answer_of};
ghost use Rattle.paper.specs.terms.Reading.{record_in};
ghost use Rattle.recall.specs.Recall.{base_told, end_told, is_one, many_told, size_at, size_behind, size_told, step_of, told};
ghost use Rattle.sizes.specs.SizeStep.{step_as_paper};
ghost use Rattle.views.specs.Shown.{table_by};

use paper::{Sized, TypeNo};
use rows::is_alias;
use sizes::{Step, step_in, step_words};
use views::{View, kind_at, record_of};

// A place of the slice that tells is this or more: above every mark of a type on the way of the search.
pub const FIRST_TELLING: u32 = 1073872896;

// The most that a place can tell.
pub(crate) const MOST_TOLD: u32 = 3221094399;

// The most that is remembered of an element's size; one more stands for none.
pub(crate) const HALF_SIZE: u32 = 2147483648;

// What the slice tells of a type; 0 where it tells nothing.
pub fn told(memo: &[u32], t: TypeNo) -> u32
    ensures { result ≡ told memo.now t.0 }
{
    let i = t.0 as usize;
    if memo.len() <= i {
        return 0;
    }
    let m = memo[i];
    if m < FIRST_TELLING {
        return 0;
    }
    m - FIRST_TELLING
}

// The base of a type.
pub fn base_told(
    base: &[u8],
    b: &[u8],
    index: &[u32],
    view: View,
    memo: &[u32],
    t: TypeNo,
) -> TypeNo
    ensures { result.0 ≡ base_told memo.now (table_by base.now b.now index.now view) t.0 }
{
    if is_alias(kind_at(base, b, index, view, t)) {
        return TypeNo(told(memo, t));
    }
    t
}

// A step to one other type, whose size is this one's.
fn is_one(step: Step) -> bool
    ensures { result ≡ is_one (step_as_paper step) }
{
    match step {
        Step::ManyOf(n, _) => n == 1,
        Step::Is(_) => false,
        Step::Sizeless => false,
        Step::Lost => false,
    }
}

// The type whose size a type has.
pub(crate) fn end_told(
    base: &[u8],
    b: &[u8],
    index: &[u32],
    view: View,
    memo: &[u32],
    t: TypeNo,
) -> TypeNo
    ensures { result.0 ≡ end_told memo.now (table_by base.now b.now index.now view) t.0 }
{
    let a = base_told(base, b, index, view, memo, t);
    if is_one(step_in(base, b, index, view, a)) {
        return TypeNo(told(memo, a));
    }
    a
}

// So many times a size.
fn so_many(n: u32, s: u32) -> Sized
    ensures { sized_as_paper result ≡ answer_of (some (n * s)) }
{
    let q = (n as u64) * (s as u64);
    if q <= 4294967295 {
        return Sized::Exact(q as u32);
    }
    Sized::Overflow
}

// So many of an element whose size a code tells.
fn many_told(n: u32, code: u32) -> Sized
    ensures { sized_as_paper result ≡ answer_of (many_told n code) }
{
    if HALF_SIZE < code {
        return Sized::NoSize;
    }
    so_many(n, code)
}

// The size of a type by its step, and by what is told of its element.
fn size_behind(step: Step, code: u32) -> Sized
    ensures { sized_as_paper result ≡ answer_of (size_behind (step_as_paper step) code) }
{
    match step {
        Step::Is(s) => Sized::Exact(s),
        Step::ManyOf(n, _) => many_told(n, code),
        Step::Sizeless => Sized::NoSize,
        Step::Lost => Sized::NoSize,
    }
}

// The size of a type that is no alias, by the bytes that begin with its record. Two types more are looked at, at the most.
pub fn size_at(
    base: &[u8],
    b: &[u8],
    index: &[u32],
    view: View,
    memo: &[u32],
    bytes: &[u8],
    a: TypeNo,
) -> Sized
    ensures { sized_as_paper result ≡ answer_of (size_at memo.now (table_by base.now b.now index.now view) a.0 (step_of (record_in view.order bytes.now))) }
{
    let order = view.order;
    match step_words(order, bytes) {
        Step::Is(s) => Sized::Exact(s),
        Step::ManyOf(n, _) => {
            let code = told(memo, a);
            if n == 1 {
                let e = TypeNo(code);
                return size_behind(step_in(base, b, index, view, e), told(memo, e));
            }
            many_told(n, code)
        }
        Step::Sizeless => Sized::NoSize,
        Step::Lost => Sized::NoSize,
    }
}

// The size of a type.
pub fn size_told<'a>(
    base: &'a [u8],
    b: &'a [u8],
    index: &[u32],
    view: View,
    memo: &[u32],
    t: TypeNo,
) -> Sized
    ensures { sized_as_paper result ≡ answer_of (size_told memo.now (table_by base.now b.now index.now view) t.0) }
{
    let a = base_told(base, b, index, view, memo, t);
    size_at(
        base,
        b,
        index,
        view,
        memo,
        record_of(base, b, index, view, a),
        a,
    )
}
