// Which of the rules is due for a member and a record of so many bytes, by the paper's numbers.
ghost use Rattle.std.specs.Prelude.{◌≡◌, true, [], ◌∷◌};
ghost use Rattle.paper.specs.rules.Answer.{report};
ghost use Rattle.paper.specs.rules.Choice.{member};
ghost use Rattle.values.specs.Given.{given_as_paper, refused_as, sort_number};
ghost use Rattle.values.specs.Promised.{judged, refusal, refusals};

use crate::{Sort, Valued};

// Behind 31: by the record's length, by the member, and by the span. The end is compared in bytes, since eight times a length may pass 2^64.
fn judge_span(number: u32, size: u32, from: u64, bits: u32, len: u64) -> u32
    requires { member number (0 ∷ 1 ∷ 32 ∷ 33 ∷ []) ≡ true }
    ensures { result ≡ judged (record { number = number; size = size; from = from; bits = bits }) len }
{
    if len < size as u64 {
        return 30;
    }
    if 1 < number {
        return number;
    }
    if bits == 0 {
        return 33;
    }
    if 128 < bits {
        return 33;
    }
    let end = from / 8 + (from % 8 + (bits as u64) + 7) / 8;
    if len < end {
        return 30;
    }
    number
}

// Any member, by its sort.
pub(crate) fn judge(sort: Sort, size: u32, from: u64, bits: u32, len: u64) -> u32
    ensures { result ≡ judged (record { number = sort_number sort; size = size; from = from; bits = bits }) len }
{
    match sort {
        Sort::Unsigned => judge_span(0, size, from, bits, len),
        Sort::Signed => judge_span(1, size, from, bits, len),
        Sort::HighFirst => 35,
        Sort::NoType => 21,
        Sort::NoStruct => 31,
        Sort::NoMember => judge_span(32, size, from, bits, len),
        Sort::NoNumber => judge_span(33, size, from, bits, len),
    }
}

// The refusal of a number.
pub(crate) fn refused(number: u32) -> Valued
    requires { member number refusals ≡ true }
    ensures { given_as_paper (refusal result) ≡ refused_as (report number 0) }
{
    match number {
        21 => Valued::NoType,
        30 => Valued::RecordShort,
        31 => Valued::NoStruct,
        32 => Valued::NoMember,
        35 => Valued::HighFirst,
        _ => Valued::NoNumber,
    }
}
