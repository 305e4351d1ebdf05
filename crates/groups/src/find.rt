// A part without a table beside it: whether it has no 45 and no 46, and where one of its records stands.
ghost use Rattle.std.specs.Prelude.{◌≡◌, ◌≤◌};
ghost use Rattle.exts.specs.Entries.{entry_as_paper, found_as_paper};
ghost use Rattle.groups.specs.Asking.{GroupsFound, GroupsWhole, part_record, part_whole};

use crate::walk::{group_at, size_ok};
use exts::Sort;
use paper::{NameOff, Place};
use words::blob_word;

// No group from a place up to the part's end is broken.
fn groups_whole(s: &[u8], size: u32, at: u32, end: u32) -> bool
    ensures { GroupsWhole result s.now size at end }
{
    let mut p = at;
    // A while: each group says where the next begins, so there is no count to go over.
    while p < end {
        let Some(group) = group_at(s, size, p, end) else {
            return false;
        };
        p = group.next;
    }
    true
}

// A part has no 45 and no 46.
pub(crate) fn part_whole(s: &[u8], sort: Sort, from: u32, end: u32) -> bool
    requires { end ≤ 1000000 }
    ensures { result ≡ part_whole s.now sort from end }
{
    if end <= from {
        return true;
    }
    let size = blob_word(s, Place(from));
    if !size_ok(sort, size) {
        return false;
    }
    let first = from + 4;
    groups_whole(s, size, first, end)
}

// Record y of the groups from a place up to the part's end.
fn find_in_groups(s: &[u8], size: u32, at: u32, end: u32, y: u32) -> Option<(NameOff, Place)>
    ensures { GroupsFound result s.now size at end y }
{
    let mut p = at;
    let mut left = y;
    // A while: each group says where the next begins, so there is no count to go over.
    while p < end {
        let group = group_at(s, size, p, end)?;
        if left < group.count {
            let before = left * size;
            let place = p + 8 + before;
            return Some((NameOff(group.name), Place(place)));
        }
        left -= group.count;
        p = group.next;
    }
    None
}

// Record y of a part.
pub(crate) fn find_in_part(
    s: &[u8],
    sort: Sort,
    from: u32,
    end: u32,
    y: u32,
) -> Option<(NameOff, Place)>
    requires { end ≤ 1000000 }
    ensures { found_as_paper result ≡ entry_as_paper (part_record s.now sort from end y) }
{
    if end <= from {
        return None;
    }
    let size = blob_word(s, Place(from));
    if !size_ok(sort, size) {
        return None;
    }
    let first = from + 4;
    find_in_groups(s, size, first, end, y)
}
