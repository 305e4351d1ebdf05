// The join: both tables are checked and the limits asked before anything is written.
ghost use Rattle.std.specs.Prelude.{◌≡◌, length};
ghost use Rattle.join.specs.Joins.{BothAccepted, JoinOf, LimitedOf};

use crate::blob::write;
use gate::check;
use paper::{BYTE_LIMIT, JoinError, TYPE_LIMIT};
use scan::clear;

// Two accepted tables of n and m types: 24, 18, 19, 20, else the joined blob.
fn join_accepted(a: &[u8], b: &[u8], n: u32, m: u32, out: &mut [u8]) -> Result<u32, JoinError>
    requires { BothAccepted a.now b.now n m }
    ensures { LimitedOf result a.now b.now out.old out.new }
{
    if words::order_of(a) != words::order_of(b) {
        return Err(JoinError::OrdersDiffer);
    }
    if TYPE_LIMIT < n + m {
        return Err(JoinError::TooMany);
    }
    let len = a.len() + b.len() - 25;
    if BYTE_LIMIT < len {
        return Err(JoinError::TooLong);
    }
    if out.len() < len {
        return Err(JoinError::OutputShort);
    }
    write(a, b, n, m, &mut out[..len]);
    Ok(len as u32)
}

// The joined length of two accepted tables within the limits, with the joined blob in the output; else the first ground of refusal,
// with the output as it was. Both u32 slices end all 0.
pub fn join(
    a: &[u8],
    b: &[u8],
    index: &mut [u32],
    work: &mut [u32],
    out: &mut [u8],
) -> Result<u32, JoinError>
    ensures { JoinOf result a.now b.now (length index.old) (length work.old) out.old index.new work.new out.new }
{
    let n = check(a, index, work).map_err(JoinError::FirstRefused)?;
    let m = check(b, index, work).map_err(JoinError::SecondRefused)?;
    clear(index);
    join_accepted(a, b, n, m, out)
}
