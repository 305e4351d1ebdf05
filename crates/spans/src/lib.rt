// A member's span: which bits of a record it takes, of any table that an index shows. Sums are in 64 bits, since an offset and a span pass 2^32 together.
#![tactic(auto)]

mod bases; // the base of a type
mod members; // the span of a member, by its words

ghost use Rattle.std.specs.Prelude.{◌≡◌, not, ◌||◌, [], ◌∷◌, eqb};
ghost use Rattle.spans.specs.Spanned.{span_as_paper, span_with, with_offset};
ghost use Rattle.paper.specs.rules.Choice.{member};
ghost use Rattle.paper.specs.rules.KindNo.{ENUM, ENUM64, INT};
ghost use Rattle.paper.specs.terms.Reading.{record_in};
ghost use Rattle.paper.specs.rules.Span.{bit_offset, field_span, is_regular, is_regular_word, plain_span, whole_span};
ghost use Rattle.paper.specs.rules.Table.{kind_of};

pub use bases::base_record;
use kindrows::{ENUM, ENUM64, INT};
pub use members::{member_span, span_ends};
use paper::{Order, Place};
use rows::kind_of;

// A width that a regular INT has.
fn regular_width(w: u32) -> bool
    ensures { result ≡ member w (8 ∷ 16 ∷ 32 ∷ 64 ∷ 128 ∷ []) }
{
    matches!(w, 8 | 16 | 32 | 64 | 128)
}

// The word of a regular INT.
fn regular_word(w: u32) -> bool
    ensures { result ≡ is_regular_word w }
{
    if w / 65536 % 256 != 0 {
        return false;
    }
    regular_width(w % 256)
}

// A record is that of a regular INT.
pub fn is_regular(order: Order, s: &[u8]) -> bool
    ensures { result ≡ is_regular (record_in order s.now) }
{
    if kind_of(words::read(order, s, Place(4))) != INT {
        return false;
    }
    regular_word(words::read(order, s, Place(12)))
}

// A base that a member of a record with kind_flag 1 may have.
fn regular_or_other(order: Order, s: &[u8]) -> bool
    ensures { result ≡ not (eqb (kind_of (record_in order s.now)) INT) || is_regular (record_in order s.now) }
{
    if kind_of(words::read(order, s, Place(4))) != INT {
        return true;
    }
    is_regular(order, s)
}

// An integer or an enum: what a field of some bits may be of, and what has a value.
pub fn is_number(kind: u32) -> bool
    ensures { result ≡ member kind (INT ∷ ENUM ∷ ENUM64 ∷ []) }
{
    matches!(kind, INT | ENUM | ENUM64)
}

// A member's own bit offset, by its offset word.
pub fn bit_offset(flag: u32, offset: u32) -> u32
    ensures { result ≡ bit_offset flag (with_offset offset) }
{
    if flag == 1 {
        return offset % 16777216;
    }
    offset
}

// "8 times size from a multiple of 8".
fn whole_span(from: u32, size: u32) -> Option<(u64, u64)>
    ensures { span_as_paper result ≡ whole_span from size }
{
    if from % 8 != 0 {
        return None;
    }
    let bits = 8 * (size as u64);
    Some((from as u64, bits))
}

// With kind_flag 0: an INT's own bits, or the whole of another base.
fn plain_span(order: Order, bytes: &[u8], offset: u32, size: u32) -> Option<(u64, u64)>
    ensures { span_as_paper result ≡ plain_span (record_in order bytes.now) (with_offset offset) size }
{
    if kind_of(words::read(order, bytes, Place(4))) != INT {
        return whole_span(offset, size);
    }
    let w = words::read(order, bytes, Place(12));
    let from = (offset as u64) + ((w / 65536 % 256) as u64);
    let bits = (w % 256) as u64;
    Some((from, bits))
}

// With kind_flag 1: the whole of a base, or a field of w bits.
fn field_span(order: Order, bytes: &[u8], offset: u32, size: u32) -> Option<(u64, u64)>
    ensures { span_as_paper result ≡ field_span (record_in order bytes.now) (with_offset offset) size }
{
    if !regular_or_other(order, bytes) {
        return None;
    }
    let from = offset % 16777216;
    let w = offset / 16777216 % 256;
    if w == 0 {
        return whole_span(from, size);
    }
    if !is_number(kind_of(words::read(order, bytes, Place(4)))) {
        return None;
    }
    if 8 * (size as u64) < (w as u64) {
        return None;
    }
    let first = from as u64;
    let bits = w as u64;
    Some((first, bits))
}

// By kind_flag.
pub fn span_with(
    order: Order,
    bytes: &[u8],
    flag: u32,
    offset: u32,
    size: u32,
) -> Option<(u64, u64)>
    ensures { span_as_paper result ≡ span_with flag (record_in order bytes.now) offset size }
{
    if flag == 1 {
        return field_span(order, bytes, offset, size);
    }
    plain_span(order, bytes, offset, size)
}
