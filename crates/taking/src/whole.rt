// A whole list: the string section "comes first; then one field for each record".
ghost use Rattle.std.specs.Prelude.{◌≡◌};
ghost use Rattle.lists.specs.List.{tag_order};
ghost use Rattle.taking.specs.Measuring.{CountedAs, MeasuredAs};

use crate::bodies::take_body;
use crate::records::take_record;
use lists::Fault;
use paper::Order;
use totals::{Totals, after};

// The table that a list is read as: the byte order, how many bytes its strings have, how many records there are and how many bytes they have.
#[derive(Clone, Copy)]
pub struct Sections {
    pub order: Order,
    pub strings: usize,
    pub records: Totals,
}

// The order that a string section's tag says.
fn tag_order(tag: u32) -> Order
    ensures { result ≡ tag_order tag }
{
    if tag == 33 {
        return Order::HighFirst;
    }
    Order::LowFirst
}

// The records, to the end of the bytes.
fn count_records(order: Order, s: &[u8]) -> Result<Totals, Fault>
    ensures { CountedAs result order s.now }
{
    let mut totals = Totals { types: 0, bytes: 0 };
    let mut p = 0;
    // A while: each record says where the next begins, so there is no count to go over.
    while p < s.len() {
        let record = take_record(order, &s[p..])?;
        totals = after(totals, record.len);
        p += record.end;
    }
    Ok(totals)
}

// Any bytes: "the first field at fault speaks (for a body its last), by its smallest number".
pub fn measure(s: &[u8]) -> Result<Sections, Fault>
    ensures { MeasuredAs result s.now }
{
    let body = take_body(true, s)?;
    let order = tag_order(body.tag);
    let records = count_records(order, &s[body.end..])?;
    let strings = body.len;
    Ok(Sections {
        order,
        strings,
        records,
    })
}
