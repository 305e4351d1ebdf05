// A list read back: 50 to 52 first, "Then 53, the output or a lent byte work slice is shorter than the table; then 54".
ghost use Rattle.std.specs.Prelude.{◌≡◌, ◌+◌, leb, length};
ghost use Rattle.list.specs.Making.{MakeAsk};
ghost use Rattle.list.specs.Reading.{LaidOf, LookAsk, LookedOf, ReadOf};
ghost use Rattle.paper.specs.rules.Gate.{zeros};

use crate::making::put_table;
use gate::check;
use lists::MakeError;
use paper::{BYTE_LIMIT, Report};
use scan::clear;
use taking::{Sections, measure};

const HEADER: usize = 24;

// Whether a slice holds a header and so many bytes behind it. A difference is taken, since the sum could pass 64 bits.
fn holds(room: usize, sections: usize) -> bool
    ensures { result ≡ leb (24 + sections) room }
{
    if room < HEADER {
        return false;
    }
    sections <= room - HEADER
}

fn blank(s: &mut [u8])
    ensures { s.new ≡ zeros (length s.old) }
{
    s.fill(0);
}

// The table is laid into bytes of just its length, and checked there.
fn lay_checked(
    s: &[u8],
    x: Sections,
    index: &mut [u32],
    work: &mut [u32],
    bytes: &mut [u8],
) -> Result<u32, Report>
    requires { MakeAsk s.now x.order x.records.bytes x.strings (length bytes.old) }
    ensures { LaidOf result s.now (length index.old) (length work.old) index.new work.new bytes.new }
{
    let order = x.order;
    let strings = x.strings as u32;
    let records = x.records;
    let types = records.bytes as u32;
    put_table(s, order, types, strings, bytes);
    check(bytes, index, work)
}

// Of a list that is read as a table: 53, 54, or the table in the output. One that is too long is refused before it is laid.
fn look(
    s: &[u8],
    x: Sections,
    index: &mut [u32],
    work: &mut [u32],
    bytes: &mut [u8],
    out: &mut [u8],
) -> Result<u32, MakeError>
    requires { LookAsk s.now x index.old work.old }
    ensures { LookedOf result s.now (length index.old) (length work.old) (length bytes.old) out.old index.new work.new out.new }
{
    let records = x.records;
    let sections = x.strings + records.bytes;
    if !holds(out.len(), sections) {
        return Err(MakeError::Short); // the output
    }
    if !holds(bytes.len(), sections) {
        return Err(MakeError::Short); // the lent bytes
    }
    if !holds(BYTE_LIMIT, sections) {
        return Err(MakeError::Refused(Report::Length));
    }
    let len = HEADER + sections;
    lay_checked(s, x, index, work, &mut bytes[..len]).map_err(MakeError::Refused)?;
    words::lay(out, 0, &bytes[..len]);
    Ok(len as u32)
}

// Any list, with both u32 slices clear: 50 to 52, or what is looked at of its table.
fn read_cleared(
    s: &[u8],
    index: &mut [u32],
    work: &mut [u32],
    bytes: &mut [u8],
    out: &mut [u8],
) -> Result<u32, MakeError>
    requires { (index.old ≡ zeros (length index.old)) × (work.old ≡ zeros (length work.old)) }
    ensures { LookedOf result s.now (length index.old) (length work.old) (length bytes.old) out.old index.new work.new out.new }
{
    let x = measure(s).map_err(MakeError::Unread)?;
    look(s, x, index, work, bytes, out)
}

// The length of the table, which is then in the output; else the first ground of refusal, with the output as it was. Both u32 slices end as
// the check of the table leaves them, all 0 where none is looked at; the lent bytes end all 0.
pub fn read(
    s: &[u8],
    index: &mut [u32],
    work: &mut [u32],
    bytes: &mut [u8],
    out: &mut [u8],
) -> Result<u32, MakeError>
    ensures { ReadOf result s.now (length index.old) (length work.old) (length bytes.old) out.old index.new work.new bytes.new out.new }
{
    clear(index);
    clear(work);
    let r = read_cleared(s, index, work, bytes, out);
    blank(bytes);
    r
}
