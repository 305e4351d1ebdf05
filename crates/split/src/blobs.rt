// One part of a blob is written: a header, some of its records with each word raised by its role, some of its strings.
ghost use Rattle.std.specs.Prelude.{◌+◌, ◌≤◌, length};
ghost use Rattle.split.specs.Parting.{PartAsk, PartPut};

use shift::{Shift, put_header, raise_records};

// Where the records and the strings of a part stand in the blob: `records` many from a place on, that have `types` bytes; and `strings` bytes.
#[derive(Clone, Copy)]
pub(crate) struct Piece {
    pub(crate) from: usize,
    pub(crate) records: u32,
    pub(crate) types: u32,
    pub(crate) start: usize,
    pub(crate) strings: u32,
}

// Into an output of just that length, each behind the one before.
pub(crate) fn write_part(b: &[u8], piece: Piece, by: Shift, out: &mut [u8])
    requires { PartAsk (length b.now) piece (length out.old) }
    ensures { PartPut b.now piece by out.old out.new }
{
    let order = by.order;
    let types = piece.types;
    let strings = piece.strings;
    let from = piece.from;
    let start = piece.start;
    let n = piece.records;
    put_header(order, b, types, strings, out);
    raise_records(&b[from..], n, by, &mut out[24..]);
    let behind = 24 + types as usize;
    let end = start + strings as usize;
    words::lay(out, behind, &b[start..end]);
}
