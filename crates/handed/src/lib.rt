// What is handed out of a member's answer, to test vectors and to C: its numbers, and the sixteen bytes of its value; and its span in places, and back.
#![tactic(auto)]

mod spans; // a span in places

ghost use Rattle.std.specs.Prelude.{◌≡◌};
ghost use Rattle.std.specs.Int.{w64};
ghost use Rattle.std.proofs.Common.{of_z};
ghost use Rattle.answers.specs.Numbers.{as_paper};
ghost use Rattle.handed.specs.Handed.{int_bytes, numbers_of, sixteen_of, span_numbers};
ghost use Rattle.paper.specs.rules.Answer.{inside, report};
ghost use Rattle.values.specs.Given.{given_as_paper};

use answers::{Numbers, of_report};
pub use spans::{high_of, span_in, span_numbers};
use values::{MemberValue, Valued, sixteen};

// The 64 bits of an integer, as a number.
pub fn word_of(z: i64) -> u64
    ensures { result ≡ of_z w64 z }
{
    if z < 0 {
        let k = -(z + 1);
        return 0xffff_ffff_ffff_ffff - (k as u64);
    }
    z as u64
}

// An integer's sixteen bytes.
fn of_int(z: i64) -> [u8; 16]
    ensures { result ≡ int_bytes z }
{
    if z < 0 {
        return sixteen(word_of(z), 0xffff_ffff_ffff_ffff);
    }
    sixteen(word_of(z), 0)
}

// The sixteen bytes of a value, low byte first, however many bits it has.
pub fn sixteen_of(v: MemberValue) -> [u8; 16]
    ensures { result ≡ sixteen_of (given_as_paper v) }
{
    let value = v.value;
    match value {
        Valued::Unsigned(n) => sixteen(n, 0),
        Valued::Signed(z) => of_int(z),
        Valued::Longer => v.bytes,
        Valued::TableRefused(_) => v.bytes,
        Valued::HighFirst => v.bytes,
        Valued::NoType => v.bytes,
        Valued::NoStruct => v.bytes,
        Valued::RecordShort => v.bytes,
        Valued::NoMember => v.bytes,
        Valued::NoNumber => v.bytes,
    }
}

// A number, with a span where there is one.
fn spanned(number: u32, from: u64, bits: u32) -> Numbers
    ensures { as_paper result ≡ span_numbers number from bits }
{
    Numbers {
        number,
        inner: 0,
        t: (from % 4294967296) as u32,
        p: bits,
    }
}

// The report inside 34.
pub fn within_34(r: Numbers) -> Numbers
    ensures { as_paper result ≡ inside 34 (as_paper r) }
{
    Numbers {
        number: 34,
        inner: r.number,
        t: r.t,
        p: r.p,
    }
}

// A refusal's number alone.
fn bare(number: u32) -> Numbers
    ensures { as_paper result ≡ report number 0 }
{
    Numbers {
        number,
        inner: 0,
        t: 0,
        p: 0,
    }
}

// The four numbers of a member's answer.
pub fn numbers_of(v: MemberValue) -> Numbers
    ensures { as_paper result ≡ numbers_of (given_as_paper v) }
{
    let value = v.value;
    match value {
        Valued::Unsigned(_) => spanned(0, v.from, v.bits),
        Valued::Signed(_) => spanned(1, v.from, v.bits),
        Valued::Longer => spanned(2, v.from, v.bits),
        Valued::TableRefused(r) => within_34(of_report(r)),
        Valued::HighFirst => bare(35),
        Valued::NoType => bare(21),
        Valued::NoStruct => bare(31),
        Valued::RecordShort => bare(30),
        Valued::NoMember => bare(32),
        Valued::NoNumber => bare(33),
    }
}
