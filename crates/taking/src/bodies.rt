// A body: "A body of exactly 65,535 bytes is followed by a field of tag 127 that carries it on".
ghost use Rattle.std.specs.Prelude.{◌≡◌};
ghost use Rattle.taking.specs.Taking.{BodyAs, CarryAsk, carried_from, stands_as};
ghost use Rattle.lists.specs.List.{take_body};

use crate::one::{CARRY, is_string_tag, take_field};
use lists::Fault;
use rows::is_known;

const MOST: usize = 65535;

// The tag of a body, how many bytes it has, and where its last field ends.
#[derive(Clone, Copy)]
pub(crate) struct Body {
    pub(crate) tag: u32,
    pub(crate) len: usize,
    pub(crate) end: usize,
}

// Whether a body of this tag may stand here: a string section's, or a record's.
fn stands(strings: bool, tag: u32) -> bool
    ensures { result ≡ stands_as strings tag }
{
    if strings {
        return is_string_tag(tag);
    }
    is_known(tag)
}

// The fields behind the first of a body, which has so many bytes.
fn carry(s: &[u8], tag: u32, first: usize) -> Result<Body, Fault>
    requires { CarryAsk s.now first }
    ensures { BodyAs result (carried_from s.now tag first) s.now }
{
    let mut last = first;
    let mut len = first;
    let mut end = 3 + first;
    // A while: a full field says that another follows, and nothing says how many.
    while last == MOST {
        let next = match take_field(&s[end..]) {
            Ok(next) => next,
            // no `?`: on an arm a wrong fault can be planted alone (must-fail/later_fault_is_52.edit)
            Err(f) => return Err(f),
        };
        if next.tag != CARRY {
            return Err(Fault::OutOfPlace);
        }
        last = next.len;
        len += last;
        end += 3 + last;
    }
    Ok(Body { tag, len, end })
}

// A whole body: 50 or 51 of a field, or 52 of its tag, whichever comes first.
pub(crate) fn take_body(strings: bool, s: &[u8]) -> Result<Body, Fault>
    ensures { BodyAs result (take_body (stands_as strings) s.now) s.now }
{
    let first = take_field(s)?;
    if !stands(strings, first.tag) {
        return Err(Fault::OutOfPlace);
    }
    carry(s, first.tag, first.len)
}
