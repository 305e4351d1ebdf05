// The walk of a part: 45, then each group's 46 and 47, then each record's 47 and 48. One walk for all sorts of record.
ghost use Rattle.std.specs.Prelude.{◌≡◌, [], ◌+◌, ◌*◌, ◌≤◌, ◌<◌};
ghost use Rattle.exts.specs.Ext.{judged_number};
ghost use Rattle.exts.specs.Sorts.{size_ok};
ghost use Rattle.groups.specs.Walking.{StepAs, TurnAs, entries_fault, groups_fault, part_fault};
ghost use Rattle.views.specs.Shown.{table_by};

use crate::records::{judge_entry, row_of};
use exts::{Fault, Sort};
use paper::Place;
use views::View;
use words::blob_word;

// A group's name offset, its count of records, and where the next begins.
#[derive(Clone, Copy)]
pub(crate) struct Group {
    pub(crate) name: u32,
    pub(crate) count: u32,
    pub(crate) next: u32,
}

// The group at a place of a part, if it is whole. The product is taken in 64 bits, where it fits.
pub(crate) fn group_at(s: &[u8], size: u32, at: u32, end: u32) -> Option<Group>
    requires { at ≤ end }
    ensures { StepAs result s.now size at end }
{
    let room = end - at;
    if room < 8 {
        return None;
    }
    let behind = at + 4;
    let count = blob_word(s, Place(behind));
    if count == 0 {
        return None;
    }
    let bytes = count as u64 * size as u64;
    let most = room - 8;
    if (most as u64) < bytes {
        return None;
    }
    let next = at + 8 + bytes as u32;
    let name = blob_word(s, Place(at));
    Some(Group { name, count, next })
}

// So many records of so many bytes from a place on.
fn judge_entries(
    b: &[u8],
    index: &[u32],
    view: View,
    strings: usize,
    s: &[u8],
    sort: Sort,
    size: u32,
    count: u32,
    at: u32,
) -> Result<(), Fault>
    requires { at + count * size ≤ 1000000 }
    ensures { judged_number result ≡ entries_fault (table_by [] b.now index.now view) strings s.now sort size count at }
{
    for i in 0..count {
        judge_entry(b, index, view, strings, s, sort, at + i * size)?;
    }
    Ok(())
}

// The group at a place; where it has no fault, where the next begins.
fn judge_group(
    b: &[u8],
    index: &[u32],
    view: View,
    strings: usize,
    s: &[u8],
    sort: Sort,
    size: u32,
    at: u32,
    end: u32,
) -> Result<u32, Fault>
    requires { (at ≤ end) × (end ≤ 1000000) }
    ensures { TurnAs result (table_by [] b.now index.now view) strings s.now sort size at end }
{
    let Some(group) = group_at(s, size, at, end) else {
        return Err(Fault::Group);
    };
    if strings <= group.name as usize {
        return Err(Fault::Named);
    }
    let first = at + 8;
    judge_entries(b, index, view, strings, s, sort, size, group.count, first)?;
    Ok(group.next)
}

// The groups from a place up to the part's end.
fn judge_groups(
    b: &[u8],
    index: &[u32],
    view: View,
    strings: usize,
    s: &[u8],
    sort: Sort,
    size: u32,
    at: u32,
    end: u32,
) -> Result<(), Fault>
    requires { end ≤ 1000000 }
    ensures { judged_number result ≡ groups_fault (table_by [] b.now index.now view) strings s.now sort size at end }
{
    let mut p = at;
    // A while: each group says where the next begins, so there is no count to go over.
    while p < end {
        p = judge_group(b, index, view, strings, s, sort, size, p, end)?;
    }
    Ok(())
}

// A record size that a sort may have.
pub(crate) fn size_ok(sort: Sort, size: u32) -> bool
    ensures { result ≡ size_ok sort size }
{
    let least = row_of(sort).size;
    if size < least {
        return false;
    }
    size % 4 == 0
}

// A part, by the places where it begins and ends.
pub(crate) fn judge_part(
    b: &[u8],
    index: &[u32],
    view: View,
    strings: usize,
    s: &[u8],
    sort: Sort,
    from: u32,
    end: u32,
) -> Result<(), Fault>
    requires { end ≤ 1000000 }
    ensures { judged_number result ≡ part_fault (table_by [] b.now index.now view) strings s.now sort from end }
{
    if end <= from {
        return Ok(());
    }
    let size = blob_word(s, Place(from));
    if !size_ok(sort, size) {
        return Err(Fault::RecordSize);
    }
    let first = from + 4;
    judge_groups(b, index, view, strings, s, sort, size, first, end)
}
