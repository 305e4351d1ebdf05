// The record question, of a section alone: record y, counted from 0, of part x, counted from 1. There is none where the section could be
// accepted beside no table.
ghost use Rattle.std.specs.Prelude.{◌≡◌, ◌≤◌, length};
ghost use Rattle.exts.specs.Entries.{entry_as_paper, found_as_paper, part_at, record_asked};
ghost use Rattle.groups.specs.Asking.{BytesOf, PickedOf, PartBytes, parts_whole, picked_part};
ghost use Rattle.groups.specs.Fronts.{three_parts};

use crate::find::{find_in_part, part_whole};
use crate::front::{Front, opens, read_front};
use crate::records::row_of;
use exts::Sort;
use paper::{BYTE_LIMIT, NameOff, Place};

// The part that a record is asked of: its sort, and the places where it begins and ends.
#[derive(Clone, Copy)]
pub(crate) struct Picked {
    pub(crate) sort: Sort,
    pub(crate) from: u32,
    pub(crate) end: u32,
}

// Three parts that begin and end there have no 45 and no 46.
fn parts_whole(s: &[u8], front: Front) -> bool
    requires { (front.lines ≤ 1000000) × (front.relocations ≤ 1000000) × (front.end ≤ 1000000) }
    ensures { result ≡ parts_whole s.now front.functions front.lines front.relocations front.end }
{
    part_whole(s, Sort::Function, front.functions, front.lines)
        & part_whole(s, Sort::Line, front.lines, front.relocations)
        & part_whole(s, Sort::Relocation, front.relocations, front.end)
}

// Part x of three.
fn part_at(x: u32, front: Front) -> Option<Picked>
    ensures { picked_part result ≡ part_at (three_parts front.functions front.lines front.relocations front.end) x }
{
    match x {
        1 => Some(Picked {
            sort: Sort::Function,
            from: front.functions,
            end: front.lines,
        }),
        2 => Some(Picked {
            sort: Sort::Line,
            from: front.lines,
            end: front.relocations,
        }),
        3 => Some(Picked {
            sort: Sort::Relocation,
            from: front.relocations,
            end: front.end,
        }),
        _ => None,
    }
}

// "there is none where the section breaks 41, 43, 44, 45 or 46 anywhere or begins with neither order's four bytes".
fn pick(s: &[u8], x: u32) -> Option<Picked>
    ensures { PickedOf result s.now x }
{
    if s.len() < 24 {
        return None;
    }
    if BYTE_LIMIT < s.len() {
        return None;
    }
    if !opens(s) {
        return None;
    }
    let Ok(front) = read_front(s) else {
        return None;
    };
    if !parts_whole(s, front) {
        return None;
    }
    part_at(x, front)
}

// Where record y of part x stands, and the name offset of its group.
pub fn record_at(s: &[u8], x: u32, y: u32) -> Option<(NameOff, Place)>
    ensures { found_as_paper result ≡ entry_as_paper (record_asked s.now x y) }
{
    let part = pick(s, x)?;
    find_in_part(s, part.sort, part.from, part.end, y)
}

// The bytes of record y of a part; none where there is no such record.
fn part_bytes(s: &[u8], sort: Sort, from: u32, end: u32, y: u32) -> &[u8]
    requires { (end ≤ 1000000) × (end ≤ length s.now) }
    ensures { PartBytes result s.entry sort from end y }
{
    match find_in_part(s, sort, from, end, y) {
        None => &s[..0],
        Some((_, place)) => {
            let at = place.0 as usize;
            let to = at + row_of(sort).size as usize;
            &s[at..to]
        }
    }
}

// Its first 8, 16 or 16 bytes as they stand, a part of the lent section; none where there is no such record.
pub fn record_bytes(s: &[u8], x: u32, y: u32) -> &[u8]
    ensures { BytesOf result s.entry x y }
{
    match pick(s, x) {
        None => &s[..0],
        Some(part) => part_bytes(s, part.sort, part.from, part.end, y),
    }
}
