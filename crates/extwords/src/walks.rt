// What a section holds, one thing after another, as far as it can be read. What it is refused for is not asked here: the check has said it.
use exts::Sort;
use paper::{BYTE_LIMIT, Place};
use std::num::wrapping_add_u32;

// Where a walk stands: in which part, if it is in one yet, up to where that goes, how long its records are, and of the group at hand how many are left and its name.
#[derive(Clone, Copy)]
pub(crate) struct Walk {
    pub(crate) part: Option<Sort>,
    pub(crate) at: u32,
    pub(crate) end: u32,
    pub(crate) size: u32,
    pub(crate) left: u32,
    pub(crate) name: u32,
}

// What it meets next: a part, a group, a record; a record size or a group that cannot be; the end. An enum of its own: what cannot be is met like
// any other, and who asks tells what it means.
#[derive(Clone, Copy)]
pub(crate) enum Met {
    Part,
    Group,
    Record(Sort),
    WrongSize,
    WrongGroup,
    End,
}

// And the place where that begins, and where the walk goes on.
#[derive(Clone, Copy)]
pub(crate) struct Step {
    pub(crate) met: Met,
    pub(crate) place: u32,
    pub(crate) walk: Walk,
}

// The word at a place of a section, in its own order; 0 where it is not there.
pub(crate) fn word(s: &[u8], at: u32) -> u32 {
    words::blob_word(s, Place(at))
}

// A word of the record or the group at a place.
pub(crate) fn word_behind(s: &[u8], at: u32, k: u32) -> u32 {
    word(s, wrapping_add_u32(at, k))
}

// How many bytes a section has; none of one that is too long.
fn length_of(s: &[u8]) -> u32 {
    if BYTE_LIMIT < s.len() {
        return 0;
    }
    s.len() as u32
}

// How many bytes a part has by the header; one of 24 bytes has no words for relocations.
fn part_length(s: &[u8], part: Sort) -> u32 {
    match part {
        Sort::Function => word(s, 12),
        Sort::Line => word(s, 20),
        Sort::Relocation => {
            if word(s, 4) < 32 {
                return 0;
            }
            word(s, 28)
        }
    }
}

// The end of a part, which is inside the section.
fn part_end(s: &[u8], part: Sort, from: u32) -> u32 {
    let end = length_of(s);
    if end < from {
        return from;
    }
    let n = part_length(s, part);
    if end - from < n {
        return end;
    }
    from + n
}

// How many bytes a record has at least.
fn least(part: Sort) -> u32 {
    match part {
        Sort::Function => 8,
        Sort::Line | Sort::Relocation => 16,
    }
}

fn size_ok(part: Sort, size: u32) -> bool {
    least(part) <= size && size % 4 == 0
}

pub(crate) fn start(s: &[u8]) -> Walk {
    let at = word(s, 4);
    Walk {
        part: None,
        at,
        end: at,
        size: 0,
        left: 0,
        name: 0,
    }
}

// A part that begins at a place: its groups stand behind its record size.
fn open_part(s: &[u8], part: Sort, from: u32) -> Step {
    let end = part_end(s, part, from);
    let size = word(s, from);
    let walk = Walk {
        part: Some(part),
        at: wrapping_add_u32(from, 4),
        end,
        size,
        left: 0,
        name: 0,
    };
    if end <= from || size_ok(part, size) {
        return Step {
            met: Met::Part,
            place: from,
            walk,
        };
    }
    Step {
        met: Met::WrongSize,
        place: from,
        walk,
    }
}

// So many records fit behind the head of the group at a place.
fn holds(at: u32, end: u32, size: u32, count: u32) -> bool {
    if count == 0 {
        return false;
    }
    if size == 0 {
        return false;
    }
    if end < at {
        return false;
    }
    let room = end - at;
    if room < 8 {
        return false;
    }
    count <= (room - 8) / size
}

// A group at the walk's place.
fn open_group(s: &[u8], w: Walk) -> Step {
    let at = w.at;
    let count = word_behind(s, at, 4);
    if !holds(at, w.end, w.size, count) {
        return Step {
            met: Met::WrongGroup,
            place: at,
            walk: w,
        };
    }
    let walk = Walk {
        at: wrapping_add_u32(at, 8),
        left: count,
        name: word(s, at),
        ..w
    };
    Step {
        met: Met::Group,
        place: at,
        walk,
    }
}

// A record at the walk's place, of which so many are left.
fn next_record(w: Walk, part: Sort, left: u32) -> Step {
    let walk = Walk {
        at: wrapping_add_u32(w.at, w.size),
        left,
        ..w
    };
    Step {
        met: Met::Record(part),
        place: w.at,
        walk,
    }
}

// The next thing.
pub(crate) fn next_of(s: &[u8], w: Walk) -> Step {
    let Some(part) = w.part else {
        return open_part(s, Sort::Function, w.end);
    };
    let left = w.left;
    if 0 < left {
        return next_record(w, part, left - 1);
    }
    if w.at < w.end {
        return open_group(s, w);
    }
    match part {
        Sort::Function => open_part(s, Sort::Line, w.end),
        Sort::Line => open_part(s, Sort::Relocation, w.end),
        Sort::Relocation => Step {
            met: Met::End,
            place: w.end,
            walk: w,
        },
    }
}
