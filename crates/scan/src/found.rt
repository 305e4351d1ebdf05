// Phases 1 and 2 together, of any blob, by itself or behind a base, and any places lent: reports 1 to 9, and the index that is left.
ghost use Rattle.std.specs.Prelude.{length};
ghost use Rattle.scan.specs.Behind.{FoundBy, ScanBehind, count_behind, rest_report, scan_report_behind};
ghost use Rattle.scan.specs.Phase2.{TypeSection};
ghost use Rattle.scan.specs.Scan.{FoundOf, ScanOf};

use crate::places::places;
use crate::slices::clear;
use crate::walk::walk;
use paper::{Place, Report, TYPE_LIMIT};

// What the walk behind so many types and the places lent say, where phase 1 says nothing. Behind more types than there may be, none has room.
fn count_behind(b: &[u8], first: u32, len: u32, places: usize, work: usize) -> Result<u32, Report>
    requires { TypeSection b.now len }
    ensures { FoundBy result (rest_report first b.now places work) (count_behind first b.now) }
{
    if TYPE_LIMIT < first {
        return Err(Report::ManyTypes(Place(24)));
    }
    let n = walk(b, first, len)?;
    if places <= n as usize {
        return Err(Report::SlicesShort);
    }
    if work <= n as usize {
        return Err(Report::SlicesShort);
    }
    Ok(n)
}

// The smallest report of the earliest phase, where so many places are lent, else the count.
fn find(b: &[u8], places: usize, work: usize) -> Result<u32, Report>
    ensures { FoundOf result b.now places work }
{
    let s = header::read(b)?;
    count_behind(b, 0, s.types, places, work)
}

// The same behind a base of so many bytes and types; the count is that of both.
fn find_behind(
    before: usize,
    b: &[u8],
    first: u32,
    places: usize,
    work: usize,
) -> Result<u32, Report>
    ensures { FoundBy result (scan_report_behind before first b.now places work) (count_behind first b.now) }
{
    let s = header::read_behind(before, b)?;
    count_behind(b, first, s.types, places, work)
}

// The answer, and the places of the records in the index; all 0 after a report.
pub fn scan(b: &[u8], index: &mut [u32], work: usize) -> Result<u32, Report>
    ensures { ScanOf result b.now (length index.old) work index.new }
{
    let found = find(b, index.len(), work);
    clear(index);
    match found {
        Ok(n) => places(b, 0, n, index),
        Err(_) => {}
    }
    found
}

// The same behind a base: the places of the new records stand behind those that the base's check left.
pub fn scan_behind(
    before: usize,
    b: &[u8],
    first: u32,
    index: &mut [u32],
    work: usize,
) -> Result<u32, Report>
    ensures { ScanBehind result before b.now first index.old work index.new }
{
    let found = find_behind(before, b, first, index.len(), work);
    match found {
        Ok(n) => places(b, first, n, index),
        Err(_) => clear(index),
    }
    found
}
