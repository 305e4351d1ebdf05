// The table is checked and the cut asked for before anything is written.
ghost use Rattle.std.specs.Prelude.{◌≡◌, ◌+◌, ◌≤◌, length, take};
ghost use Rattle.paper.specs.rules.Walk.{table_of, type_len_of};
ghost use Rattle.split.specs.Parting.{AcceptedBy, ApartOf, SplitOf};

use crate::parts_of::{write_first, write_second};
use cuts::cut_ok;
use gate::check;
use paper::{NameOff, Place, TypeNo};
use parts::SplitError;
use views::{View, place_of};

// Where the records behind a type begin: at the place of the next, or where the strings do.
fn middle_of(b: &[u8], index: &[u32], view: View, last: TypeNo) -> u32
    requires { (AcceptedBy b.now index.now view.n) × (last.0 ≤ view.n) }
    ensures { result ≡ 24 + type_len_of (take last.0 (table_of b.now).records) }
{
    let n = view.n;
    let t = last.0;
    if n <= t {
        return 24 + words::blob_word(b, Place(12));
    }
    let next = t + 1;
    place_of(index, view, TypeNo(next)).0
}

// Of an accepted table of n types: 60, 61, else both parts, each written into the front of its output.
fn apart(
    b: &[u8],
    index: &[u32],
    n: u32,
    types: TypeNo,
    strings: NameOff,
    first: &mut [u8],
    second: &mut [u8],
) -> Result<(u32, u32), SplitError>
    requires { AcceptedBy b.now index.now n }
    ensures { ApartOf result b.now types.0 strings.0 first.old second.old first.new second.new }
{
    let order = words::order_of(b);
    let view = View {
        n,
        before: 0,
        order,
    };
    if !cut_ok(b, index, view, types, strings) {
        return Err(SplitError::NoCut);
    }
    let middle = middle_of(b, index, view, types);
    let one = middle as usize + strings.0 as usize;
    let two = b.len() + 25 - one;
    if first.len() < one {
        return Err(SplitError::OutputShort);
    }
    if second.len() < two {
        return Err(SplitError::OutputShort);
    }
    write_first(b, middle, types, strings, &mut first[..one]);
    let behind = n - types.0;
    write_second(b, middle, behind, types, strings, &mut second[..two]);
    Ok((one as u32, two as u32))
}

// The lengths of both parts, which are then in the outputs; else the table's own report, 60 or 61, with the outputs as they were. Both u32
// slices end as the check of the table leaves them.
pub fn split(
    b: &[u8],
    types: TypeNo,
    strings: NameOff,
    index: &mut [u32],
    work: &mut [u32],
    first: &mut [u8],
    second: &mut [u8],
) -> Result<(u32, u32), SplitError>
    ensures { SplitOf result b.now types.0 strings.0 (length index.old) (length work.old) first.old second.old index.new work.new first.new second.new }
{
    let n = check(b, index, work).map_err(SplitError::Refused)?;
    apart(b, index, n, types, strings, first, second)
}
