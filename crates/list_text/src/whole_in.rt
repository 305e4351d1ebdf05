// A text is read as a table.
use crate::records_in::{Kept, take_record};
use crate::strings_in::{take_order, take_strings};
use crate::takes::{Missed, Wanted, unread};
use paper::{BYTE_LIMIT, Order, Place, TYPE_LIMIT};
use texts::first_of;
use words::lay;

const HEADER: usize = 24;

// The types' lines, to the end of the text or one past the limit.
fn take_records(
    text: &[u8],
    at: usize,
    strings: &[u8],
    order: Order,
    types: &mut [u8],
) -> Result<Kept, Missed> {
    let mut k = Kept { at, end: HEADER };
    for t in 1..=TYPE_LIMIT + 1 {
        if text.len() <= k.at {
            return Ok(k);
        }
        k = take_record(text, k, strings, order, t, types)?;
    }
    Ok(k)
}

// A table's first four bytes, as the word that they are in its order.
fn opening(order: Order) -> u32 {
    match order {
        Order::LowFirst => 0x0001_eb9f,
        Order::HighFirst => 0xeb9f_0100,
    }
}

fn put_front(order: Order, types: u32, strings: u32, out: &mut [u8]) {
    words::write(order, out, Place(0), opening(order));
    words::write(order, out, Place(4), 24);
    words::write(order, out, Place(8), 0);
    words::write(order, out, Place(12), types);
    words::write(order, out, Place(16), types);
    words::write(order, out, Place(20), strings);
}

// The strings behind records that end at a place, and the header before both; how long the table is, if it has room and is within the limit.
fn put_sections(order: Order, end: usize, strings: &[u8], table: &mut [u8]) -> Option<usize> {
    let n = strings.len();
    if end < HEADER {
        return None;
    }
    if table.len() < end {
        return None;
    }
    if table.len() - end < n {
        return None;
    }
    if BYTE_LIMIT < end + n {
        return None;
    }
    let types = end - HEADER;
    lay(table, end, strings);
    put_front(order, types as u32, n as u32, table);
    Some(end + n)
}

// The table of a text is put at the start of lent bytes; others are lent for its strings. How long it is is answered; or where the text cannot
// be read, and what is expected there.
pub fn take_text(text: &[u8], strings: &mut [u8], table: &mut [u8]) -> Result<usize, Missed> {
    let o = take_order(text, 0)?;
    let order = o.order;
    let s = take_strings(text, o.at, strings)?;
    let strings = first_of(strings, s.n);
    let k = take_records(text, s.at, strings, order, table)?;
    put_sections(order, k.end, strings, table).ok_or(unread(k.at, Wanted::Shorter))
}
