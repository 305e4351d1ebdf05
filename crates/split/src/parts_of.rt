// The two parts of a blob that a cut goes through.
ghost use Rattle.std.specs.Prelude.{◌≡◌, ◌+◌, ◌-◌, ◌%◌, length};
ghost use Rattle.paper.specs.rules.Table.{count};
ghost use Rattle.paper.specs.rules.Walk.{table_of};
ghost use Rattle.parts.specs.Cut.{first_bytes, second_bytes};
ghost use Rattle.split.specs.Parting.{CutAsk};

use crate::blobs::{Piece, write_part};
use paper::{NameOff, Place, TypeNo};
use shift::Shift;

// Raising by this lowers by so many, in 32 bits.
fn negated(n: u32) -> u32
    ensures { result ≡ (4294967296 - n) % 4294967296 }
{
    if n == 0 {
        return 0;
    }
    let less = 4294967295 - n;
    less + 1
}

// The first part, whose numbers stand as they are, into an output of just its length. The second's records begin at `middle`.
pub(crate) fn write_first(b: &[u8], middle: u32, types: TypeNo, strings: NameOff, out: &mut [u8])
    requires { (CutAsk b.now types.0 strings.0 middle) × (length out.old ≡ length (first_bytes b.now types.0 strings.0)) }
    ensures { out.new ≡ first_bytes b.now types.0 strings.0 }
{
    let order = words::order_of(b);
    let start = 24 + words::blob_word(b, Place(12)) as usize;
    let section = middle - 24;
    let piece = Piece {
        from: 24,
        records: types.0,
        types: section,
        start,
        strings: strings.0,
    };
    let by = Shift {
        order,
        types: TypeNo(0),
        names: NameOff(0),
    };
    write_part(b, piece, by, out);
}

// The second part, of so many records. Its strings begin with the zero byte that ends the first's.
pub(crate) fn write_second(
    b: &[u8],
    middle: u32,
    records: u32,
    types: TypeNo,
    strings: NameOff,
    out: &mut [u8],
)
    requires { (CutAsk b.now types.0 strings.0 middle) × (types.0 + records ≡ count (table_of b.now)) × (length out.old ≡ length (second_bytes b.now types.0 strings.0)) }
    ensures { out.new ≡ second_bytes b.now types.0 strings.0 }
{
    let order = words::order_of(b);
    let end = 24 + words::blob_word(b, Place(12));
    let section = end - middle;
    let less = strings.0 - 1;
    let start = end as usize + less as usize;
    let left = b.len() - start;
    let piece = Piece {
        from: middle as usize,
        records,
        types: section,
        start,
        strings: left as u32,
    };
    let by = Shift {
        order,
        types: TypeNo(negated(types.0)),
        names: NameOff(negated(less)),
    };
    write_part(b, piece, by, out);
}
