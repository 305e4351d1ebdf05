// The exact size of a type, asked of any blob and any index. Counts are multiplied down the chain of records.
#![tactic(auto)]

mod shown; // of a type of the table that an index shows

ghost use Rattle.std.specs.Prelude.{◌≡◌, ◌*◌, ◌≤◌, not};
ghost use Rattle.sizes.specs.SizeStep.{cut, readable, step_as_paper, step_of, step_words};
ghost use Rattle.paper.specs.rules.Answer.{sized_as_paper};
ghost use Rattle.pairs.specs.Lean.{size_over, step_over};
ghost use Rattle.paper.specs.rules.Size.{exactly, size_answer, size_of, step_at, step_by};
ghost use Rattle.paper.specs.rules.Word.{word_at};
ghost use Rattle.kindrows.specs.Codes.{size_rule_of};

use kindrows::ARRAY;
use paper::{Order, Place, Sized, TypeNo};
use rows::{is_known, kind_of, size_rule};
pub use shown::{size_in, step_in};

// What one record says of a size: it, so many times another type's, none, or that it cannot be read. An enum of its own: four answers, each of
// which the walk treats in its own way.
#[derive(Clone, Copy)]
pub enum Step {
    Is(u32),
    ManyOf(u32, TypeNo),
    Sizeless,
    Lost,
}

// By rule: from a record's third word, or its element and its element count. Only what the rule asks for is read.
fn step_by(order: Order, rule: u32, s: &[u8]) -> Step
    ensures { step_as_paper result ≡ step_by (size_rule_of rule) (word_at order s.now 8) (word_at order s.now 12) (word_at order s.now 20) }
{
    match rule {
        1 => Step::Is(8),
        2 => Step::Is(words::read(order, s, Place(8))),
        3 => Step::ManyOf(
            words::read(order, s, Place(20)),
            TypeNo(words::read(order, s, Place(12))),
        ),
        4 => Step::ManyOf(1, TypeNo(words::read(order, s, Place(8)))),
        _ => Step::Sizeless,
    }
}

// A kind that is not known, or an array that its record's bytes do not hold.
fn unreadable(kind: u32, len: usize) -> bool
    ensures { result ≡ not (readable kind len) }
{
    if !is_known(kind) {
        return true;
    }
    if kind != ARRAY {
        return false;
    }
    !(24 <= len)
}

// What a record says, by the words that its bytes begin with: any bytes are some record's.
pub fn step_words(order: Order, s: &[u8]) -> Step
    ensures { step_as_paper result ≡ step_words order s.now }
{
    let kind = kind_of(words::read(order, s, Place(4)));
    step_by(order, size_rule(kind), s)
}

// The same, where the record can be read. Its words are read from its place on, so that no place wraps.
fn step_of(order: Order, s: &[u8]) -> Step
    ensures { step_as_paper result ≡ step_of order s.now }
{
    let kind = kind_of(words::read(order, s, Place(4)));
    if unreadable(kind, s.len()) {
        return Step::Lost;
    }
    step_words(order, s)
}

// What the record of a type says: 21 where the index or the blob does not reach it.
fn step_at(b: &[u8], index: &[u32], t: TypeNo) -> Step
    ensures { step_as_paper result ≡ step_at b.now index.now t.0 }
{
    let k = t.0 as usize;
    if index.len() <= k {
        return Step::Lost;
    }
    let p = index[k] as usize;
    if p < 24 {
        return Step::Lost;
    }
    if b.len() < p + 12 {
        return Step::Lost;
    }
    step_of(words::order_of(b), &b[p..])
}

// A product of counts, cut where every size but 0 overflows.
pub(crate) fn times(p: u64, n: u32) -> u64
    requires { p ≤ 4294967296 }
    ensures { result ≡ cut (p * n) }
{
    let q = p * (n as u64);
    if q <= 4294967296 {
        return q;
    }
    4294967296
}

// So many times a size.
pub(crate) fn many(p: u64, s: u32) -> Sized
    requires { p ≤ 4294967296 }
    ensures { sized_as_paper result ≡ size_answer (exactly (p * s)) }
{
    let q = p * (s as u64);
    if q <= 4294967295 {
        return Sized::Exact(q as u32);
    }
    Sized::Overflow
}

// The step of a type by the blob that holds it: the base up to so many types, the other behind them.
fn step_over(base: &[u8], before: u32, b: &[u8], index: &[u32], t: TypeNo) -> Step
    ensures { step_as_paper result ≡ step_over base.now before b.now index.now t.0 }
{
    if t.0 <= before {
        return step_at(base, index, t);
    }
    step_at(b, index, t)
}

// The exact size of a type of a table that leans on a base. It trusts nobody: no more records are read than the index has places.
pub fn size_over(base: &[u8], before: u32, b: &[u8], index: &[u32], t: TypeNo) -> Sized
    ensures { sized_as_paper result ≡ size_over base.now before b.now index.now t.0 }
{
    let mut at = t.0;
    let mut count: u64 = 1;
    for _ in 0..index.len() {
        if at == 0 {
            return Sized::NoSize;
        }
        match step_over(base, before, b, index, TypeNo(at)) {
            Step::Is(s) => return many(count, s),
            Step::ManyOf(n, u) => {
                count = times(count, n);
                at = u.0;
            }
            Step::Sizeless => return Sized::NoSize,
            Step::Lost => return Sized::Lost,
        }
    }
    if at == 0 {
        return Sized::NoSize;
    }
    Sized::TooFar
}

// The exact size of a type of a table that stands by itself: it leans on no bytes and no types.
pub fn size(b: &[u8], index: &[u32], t: TypeNo) -> Sized
    ensures { sized_as_paper result ≡ size_of b.now index.now t.0 }
{
    size_over(&b[..0], 0, b, index, t)
}
