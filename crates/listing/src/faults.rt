// What can be read of a table that is refused: the records before the one that the report names. All of them were read, and fit the
// type section, but nothing more is known of them: every line gets a mark.
use crate::tables::show_all;
use lines::Out;
use paper::BYTE_LIMIT;
use rows::{info_of, tail_words};
use titles::put_many;
use words::rest_from;

// The places of so many records, the first at byte 24, are put into the index, as far as they are there; how many is answered.
fn walk(blob: &[u8], index: &mut [u32], n: u32) -> u32 {
    let mut place: usize = 24;
    for t in 0..n {
        let r = rest_from(blob, place);
        let k = (t as usize) + 1;
        if r.len() < 12 || BYTE_LIMIT < place || index.len() <= k {
            return t;
        }
        index[k] = place as u32;
        place += 12 + 4 * (tail_words(info_of(words::order_of(blob), r)) as usize);
    }
    n
}

// The first places, of type 0 and so many others.
fn first_places(index: &[u32], n: u32) -> &[u32] {
    let end = (n as usize) + 1;
    if index.len() < end {
        return index;
    }
    &index[..end]
}

// A table ends for its lines before the type at fault.
fn put_unchecked(out: &mut Out, blob: &[u8], index: &[u32], first: u32, n: u32) {
    if n <= first {
        return;
    }
    out.put(b"not checked, as it stands before that: ");
    put_many(out, (n - first) as u64, b" type\n", b" types\n");
    out.mark();
    show_all(out, blob, first_places(index, n), first, n);
}

// The types before the one that a report names, but the first ones, which are a base's; nothing where it names none.
pub fn show_before(out: &mut Out, blob: &[u8], index: &mut [u32], first: u32, t: u32) {
    if t == 0 {
        return;
    }
    let n = walk(blob, index, t - 1);
    put_unchecked(out, blob, index, first, n);
}
