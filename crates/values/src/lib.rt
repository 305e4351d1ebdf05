// What a member of a record says: the span of its bits, and the value that those bits are in a record's bytes.
#![tactic(auto)]

mod judging; // which rule is due
mod numbers; // the number of a span's bits
mod reading; // what a span inside the record says
mod signs; // with a sign, and as sixteen bytes

ghost use Rattle.std.specs.Prelude.{◌≡◌};
ghost use Rattle.values.specs.Given.{found_as_paper, given, given_as_paper, read_found};

use judging::{judge, refused};
use paper::Report;
use reading::{bytes_at, value_at};
pub use signs::sixteen;

// How a member's bits are read, or why they are not: 35, 21 and 31 whatever the record is, 32 and 33 behind its length. One
// enum and no Result: beside NoMember and NoNumber the size counts too, since a record shorter than it is refused first.
#[derive(Clone, Copy)]
pub enum Sort {
    Unsigned,
    Signed,
    HighFirst,
    NoType,
    NoStruct,
    NoMember,
    NoNumber,
}

// A member of a type, before there is a record: the bytes that the type has, the first bit of the span, and its bits; 0 where there is none.
#[derive(Clone, Copy)]
pub struct MemberSpan {
    pub sort: Sort,
    pub size: u32,
    pub from: u64,
    pub bits: u32,
}

// What a member of a record says: its value, that it is longer than 64 bits, or a refusal: 34, 35, 21, 31, 30, 32 and 33. One enum and no
// Result: beside a refusal too the span and the bytes are answered, all 0, and C gets each of the ten as one number.
#[derive(Clone, Copy)]
pub enum Valued {
    Unsigned(u64),
    Signed(i64),
    Longer,
    TableRefused(Report),
    HighFirst,
    NoType,
    NoStruct,
    RecordShort,
    NoMember,
    NoNumber,
}

// The value, beside its span. A longer one is the sixteen bytes, low byte first; beside any other answer they are 0.
#[derive(Clone, Copy)]
pub struct MemberValue {
    pub value: Valued,
    pub from: u64,
    pub bits: u32,
    pub bytes: [u8; 16],
}

// A member in a record's bytes: its value, or why it has none.
pub fn value_of(m: MemberSpan, s: &[u8]) -> MemberValue
    ensures { given_as_paper result ≡ given (read_found (found_as_paper m) s.now) }
{
    let sort = m.sort;
    let from = m.from;
    let bits = m.bits;
    let number = judge(sort, m.size, from, bits, s.len() as u64);
    if 1 < number {
        return MemberValue {
            value: refused(number),
            from: 0,
            bits: 0,
            bytes: [0u8; 16],
        };
    }
    let signed = number == 1;
    MemberValue {
        value: value_at(s, from, bits, signed),
        from,
        bits,
        bytes: bytes_at(s, from, bits, signed),
    }
}
