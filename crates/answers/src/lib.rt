// Every answer in the paper's four numbers, for what hands them out: the test vectors and the C interface.
#![tactic(auto)]

mod sections; // those about a .BTF.ext section

ghost use Rattle.std.specs.Prelude.{◌≡◌};
ghost use Rattle.lists.specs.Kept.{fault_number, made_as_paper, wrote_as_paper};
ghost use Rattle.paper.specs.rules.Answer.{checked_as_paper, inside, joined_as_paper, leaned_as_paper, report, report_as_paper, report_at, sized_as_paper, value};
ghost use Rattle.parts.specs.Cut.{parted_as_paper};
ghost use Rattle.answers.specs.Numbers.{as_paper};

use lists::{Fault, MakeError, WriteError};
use paper::{JoinError, LeanError, Place, Report, Sized, TYPE_LIMIT, TypeNo};
use parts::SplitError;
pub use sections::{of_extended, of_found};

// The number, the number of the report inside a join's refusal, the type or the count, the size, the length or the place.
#[derive(Clone, Copy)]
pub struct Numbers {
    pub number: u32,
    pub inner: u32,
    pub t: u32,
    pub p: u32,
}

// A number, and the count or the type that it names.
pub(crate) fn told(number: u32, t: u32) -> Numbers
    ensures { as_paper result ≡ report number t }
{
    Numbers {
        number,
        inner: 0,
        t,
        p: 0,
    }
}

// A number, the type that it names, and where that type's record stands.
fn placed(number: u32, t: TypeNo, at: Place) -> Numbers
    ensures { as_paper result ≡ report_at number t.0 at.0 }
{
    Numbers {
        number,
        inner: 0,
        t: t.0,
        p: at.0,
    }
}

// A size or a length.
pub(crate) fn valued(p: u32) -> Numbers
    ensures { as_paper result ≡ value p }
{
    Numbers {
        number: 0,
        inner: 0,
        t: 0,
        p,
    }
}

// A report inside the refusal of a join, or of a table on its base.
pub(crate) fn within(number: u32, r: Numbers) -> Numbers
    ensures { as_paper result ≡ inside number (as_paper r) }
{
    Numbers {
        number,
        inner: r.number,
        t: r.t,
        p: r.p,
    }
}

// The type that 8 names: the first past the limit.
const FIRST_PAST: u32 = TYPE_LIMIT + 1;

// A report of the gate.
pub fn of_report(r: Report) -> Numbers
    ensures { as_paper result ≡ report_as_paper r }
{
    match r {
        Report::Length => told(1, 0),
        Report::Opening => told(2, 0),
        Report::HeaderLength => told(3, 0),
        Report::Sections => told(4, 0),
        Report::Strings => told(5, 0),
        Report::RecordCut(t, at) => placed(6, t, at),
        Report::UnknownKind(t, at) => placed(7, t, at),
        Report::ManyTypes(at) => placed(8, TypeNo(FIRST_PAST), at),
        Report::SlicesShort => told(9, 0),
        Report::Head(t, at) => placed(10, t, at),
        Report::Named(t, at) => placed(11, t, at),
        Report::Tail(t, at) => placed(12, t, at),
        Report::Reference(t, at) => placed(13, t, at),
        Report::Endless(t, at) => placed(14, t, at),
        Report::Layout(t, at) => placed(15, t, at),
    }
}

// What a check answers.
pub fn of_checked(c: Result<u32, Report>) -> Numbers
    ensures { as_paper result ≡ checked_as_paper c }
{
    match c {
        Ok(count) => told(0, count),
        Err(r) => of_report(r),
    }
}

// What the size question answers.
pub fn of_sized(s: Sized) -> Numbers
    ensures { as_paper result ≡ sized_as_paper s }
{
    match s {
        Sized::Exact(p) => valued(p),
        Sized::NoSize => told(1, 0),
        Sized::Overflow => told(2, 0),
        Sized::Lost => told(21, 0),
        Sized::TooFar => told(22, 0),
    }
}

// What a join answers.
pub fn of_joined(j: Result<u32, JoinError>) -> Numbers
    ensures { as_paper result ≡ joined_as_paper j }
{
    match j {
        Ok(n) => valued(n),
        Err(JoinError::FirstRefused(r)) => within(16, of_report(r)),
        Err(JoinError::SecondRefused(r)) => within(17, of_report(r)),
        Err(JoinError::OrdersDiffer) => told(24, 0),
        Err(JoinError::TooMany) => told(18, 0),
        Err(JoinError::TooLong) => told(19, 0),
        Err(JoinError::OutputShort) => told(20, 0),
    }
}

// What the check of a table that leans on a base answers.
pub fn of_leaned(l: Result<u32, LeanError>) -> Numbers
    ensures { as_paper result ≡ leaned_as_paper l }
{
    match l {
        Ok(n) => told(0, n),
        Err(LeanError::BaseRefused(r)) => within(25, of_report(r)),
        Err(LeanError::OrdersDiffer) => told(26, 0),
        Err(LeanError::Refused(r)) => of_report(r),
    }
}

// What taking a table apart answers.
pub fn of_parted(p: Result<(u32, u32), SplitError>) -> Numbers
    ensures { as_paper result ≡ parted_as_paper p }
{
    match p {
        Ok((first, second)) => Numbers {
            number: 0,
            inner: 0,
            t: first,
            p: second,
        },
        Err(SplitError::Refused(r)) => of_report(r),
        Err(SplitError::NoCut) => told(60, 0),
        Err(SplitError::OutputShort) => told(61, 0),
    }
}

// What writing a list answers.
pub fn of_wrote(w: Result<u32, WriteError>) -> Numbers
    ensures { as_paper result ≡ wrote_as_paper w }
{
    match w {
        Ok(n) => valued(n),
        Err(WriteError::OutputShort) => told(53, 0),
        Err(WriteError::Refused(r)) => within(54, of_report(r)),
    }
}

// What is wrong with a list.
fn number_of(f: Fault) -> u32
    ensures { result ≡ fault_number f }
{
    match f {
        Fault::UnknownTag => 50,
        Fault::CutShort => 51,
        Fault::OutOfPlace => 52,
    }
}

// What reading a list answers.
pub fn of_made(m: Result<u32, MakeError>) -> Numbers
    ensures { as_paper result ≡ made_as_paper m }
{
    match m {
        Ok(n) => valued(n),
        Err(MakeError::Unread(f)) => told(number_of(f), 0),
        Err(MakeError::Short) => told(53, 0),
        Err(MakeError::Refused(r)) => within(54, of_report(r)),
    }
}
