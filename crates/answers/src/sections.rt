// The answers about a .BTF.ext section (order 8): of its check, and of the question for a record.
ghost use Rattle.std.specs.Prelude.{◌≡◌};
ghost use Rattle.answers.specs.Numbers.{as_paper};
ghost use Rattle.exts.specs.Entries.{found_as_paper};
ghost use Rattle.exts.specs.Ext.{extended_as_paper, fault_number};

use crate::{Numbers, of_report, told, valued, within};
use exts::{ExtError, Fault};
use paper::{NameOff, Place};

// What is wrong with a section.
fn number_of(f: Fault) -> u32
    ensures { result ≡ fault_number f }
{
    match f {
        Fault::Length => 41,
        Fault::Opening => 42,
        Fault::HeaderLength => 43,
        Fault::Parts => 44,
        Fault::RecordSize => 45,
        Fault::Group => 46,
        Fault::Named => 47,
        Fault::Typed => 48,
    }
}

// What the check of a section beside its table answers.
pub fn of_extended(e: Result<(), ExtError>) -> Numbers
    ensures { as_paper result ≡ extended_as_paper e }
{
    match e {
        Ok(()) => valued(0),
        Err(ExtError::TableRefused(r)) => within(40, of_report(r)),
        Err(ExtError::Refused(f)) => told(number_of(f), 0),
    }
}

// What the record question answers: the name offset of the record's group, and where it stands.
pub fn of_found(f: Option<(NameOff, Place)>) -> Numbers
    ensures { as_paper result ≡ found_as_paper f }
{
    match f {
        Some((name, at)) => Numbers {
            number: 0,
            inner: 0,
            t: name.0,
            p: at.0,
        },
        None => told(1, 0),
    }
}
