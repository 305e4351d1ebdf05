// "Writing a list asks 54 first, then 53 for its output".
ghost use Rattle.std.specs.Prelude.{length};
ghost use Rattle.list.specs.Listing.{ListAsk, ListedOf, WriteOf};

use crate::tables::{list_len, put_list};
use gate::check;
use lists::WriteError;

// Of an accepted table: 53, else its list.
fn listed(b: &[u8], out: &mut [u8]) -> Result<u32, WriteError>
    requires { ListAsk b.now }
    ensures { ListedOf result b.now out.old out.new }
{
    let len = list_len(b);
    if out.len() < len {
        return Err(WriteError::OutputShort);
    }
    put_list(b, &mut out[..len]);
    Ok(len as u32)
}

// The length of the list, which is then in the output; else 54 with the table's report or 53, with the output as it was. Both u32 slices end
// as the check of the table leaves them.
pub fn write(
    b: &[u8],
    index: &mut [u32],
    work: &mut [u32],
    out: &mut [u8],
) -> Result<u32, WriteError>
    ensures { WriteOf result b.now (length index.old) (length work.old) out.old index.new work.new out.new }
{
    check(b, index, work).map_err(WriteError::Refused)?;
    listed(b, out)
}
