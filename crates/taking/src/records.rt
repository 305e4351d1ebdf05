// A record's body: "one whole record of its tag's kind".
ghost use Rattle.taking.specs.Taking.{RecordAs};

use crate::bodies::{Body, take_body};
use lists::Fault;
use paper::{Order, Place};
use rows::{kind_of, tail_words};

// By its info word, which is in the first field: a field that is not the last has more bytes than a head.
pub(crate) fn take_record(order: Order, s: &[u8]) -> Result<Body, Fault>
    ensures { RecordAs result order s.now }
{
    let body = take_body(false, s)?;
    if body.len < 12 {
        return Err(Fault::OutOfPlace);
    }
    let info = words::read(order, &s[3..], Place(4));
    if kind_of(info) != body.tag {
        return Err(Fault::OutOfPlace);
    }
    let size = 12 + 4 * tail_words(info) as usize;
    if body.len != size {
        return Err(Fault::OutOfPlace);
    }
    Ok(body)
}
