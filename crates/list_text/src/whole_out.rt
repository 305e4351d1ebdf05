// The text of an accepted table is written, or held against one that stands there.
use crate::pens::Pen;
use crate::records_out::put_record;
use crate::strings_out::put_strings;
use paper::{Order, Place, TYPE_LIMIT};
use rows::{info_of, tail_words};
use texts::first_of;
use views::strings_in;
use words::rest_from;

// How many bytes the record has that some bytes begin with.
fn record_len(order: Order, r: &[u8]) -> usize {
    12 + 4 * tail_words(info_of(order, r)) as usize
}

// The records of a table, a line for each.
fn put_records(
    out: &mut [u8],
    p: Pen,
    order: Order,
    strings: &[u8],
    records: &[u8],
) -> Result<Pen, usize> {
    let mut p = p;
    let mut at = 0;
    for t in 1..=TYPE_LIMIT {
        if records.len() <= at {
            return Ok(p);
        }
        let r = &records[at..];
        p = put_record(out, p, strings, order, r, t)?;
        let n = record_len(order, r);
        if records.len() - at < n {
            return Ok(p);
        }
        at += n;
    }
    Ok(p)
}

fn put_table(b: &[u8], out: &mut [u8], is_held: bool) -> Result<Pen, usize> {
    let order = words::order_of(b);
    let strings = strings_in(b);
    let records = first_of(rest_from(b, 24), words::blob_word(b, Place(12)) as usize);
    let p = Pen { at: 0, is_held };
    let p = put_strings(out, p, order, strings)?;
    put_records(out, p, order, strings, records)
}

// The text is put at the start of the lent bytes; how long it is is answered, if they have room for it.
pub fn put_text(b: &[u8], out: &mut [u8]) -> Option<usize> {
    let p = put_table(b, out, false).ok()?;
    Some(p.at)
}

// A text is held against the one of a table; where they differ is answered, if they do. It is lent as what is written, and stays as it is.
pub fn hold_text(b: &[u8], text: &mut [u8]) -> Result<(), usize> {
    let p = put_table(b, text, true)?;
    if p.at != text.len() {
        return Err(p.at);
    }
    Ok(())
}
