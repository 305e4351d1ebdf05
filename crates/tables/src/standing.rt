// One table that stands alone and holds a base and the table that leans on it: the base's records, the other's, the base's strings, the
// other's, all as they are. It has the same types under the same numbers and names, and is accepted exactly where the two are
// (crates/pairs/proofs/Standing.antt). So what shows a table that stands alone shows every table.
use files::{READ_LIMIT, append};
use paper::Place;
use texts::first_of;
use words::rest_from;

// How many bytes the type section of a table has by its header.
pub(crate) fn records_len(blob: &[u8]) -> u32 {
    words::blob_word(blob, Place(12))
}

// How many bytes its strings have.
pub fn strings_len(blob: &[u8]) -> u32 {
    words::blob_word(blob, Place(20))
}

fn records_in(blob: &[u8]) -> &[u8] {
    first_of(rest_from(blob, 24), records_len(blob) as usize)
}

fn strings_in(blob: &[u8]) -> &[u8] {
    rest_from(rest_from(blob, 24), records_len(blob) as usize)
}

// Both tables in one; how many bytes it has is answered. Their sections fill them, and together they are no longer than a table may be.
pub(crate) fn stand(base: &[u8], own: &[u8], out: &mut [u8; READ_LIMIT]) -> usize {
    let order = words::order_of(base);
    let records = std::num::wrapping_add_u32(records_len(base), records_len(own));
    let strings = std::num::wrapping_add_u32(strings_len(base), strings_len(own));
    let n = append(out, 0, first_of(base, 24));
    let n = append(out, n, records_in(base));
    let n = append(out, n, records_in(own));
    let n = append(out, n, strings_in(base));
    let n = append(out, n, strings_in(own));
    words::write(order, out, Place(12), records);
    words::write(order, out, Place(16), records);
    words::write(order, out, Place(20), strings);
    n
}
