// The header of a section: 43 and 44, and the places where its parts begin and end.
ghost use Rattle.std.specs.Prelude.{◌≡◌, not, ◌≤◌, ◌<◌, length, take};
ghost use Rattle.exts.specs.Ext.{head_length_bad};
ghost use Rattle.exts.specs.Sorts.{header_place};
ghost use Rattle.groups.specs.Fronts.{FrontAs, NextAs};
ghost use Rattle.paper.specs.rules.Choice.{same};
ghost use Rattle.paper.specs.rules.Header.{opening_bad};

use exts::{Fault, Sort};
use paper::{Order, Place};
use words::blob_word;

// Where the parts begin, each behind the one before, and where the last ends.
#[derive(Clone, Copy)]
pub(crate) struct Front {
    pub(crate) functions: u32,
    pub(crate) lines: u32,
    pub(crate) relocations: u32,
    pub(crate) end: u32,
}

// Four bytes are those that a section begins with.
pub(crate) fn opens_as(opening: &[u8], s: &[u8]) -> bool
    requires { 4 ≤ length s.now }
    ensures { result ≡ same (take 4 s.now) (take 4 opening.now) }
{
    if opening.len() < 4 {
        return false;
    }
    (s[0] == opening[0]) & (s[1] == opening[1]) & (s[2] == opening[2]) & (s[3] == opening[3])
}

// A section begins with the four bytes of either order.
pub(crate) fn opens(s: &[u8]) -> bool
    requires { 4 ≤ length s.now }
    ensures { result ≡ not (opening_bad s.now) }
{
    match words::order_of(s) {
        Order::LowFirst => opens_as(&[0x9f, 0xeb, 1, 0], s),
        Order::HighFirst => opens_as(&[0xeb, 0x9f, 1, 0], s),
    }
}

fn header_ok(s: &[u8]) -> bool
    ensures { result ≡ not (head_length_bad s.now) }
{
    let header = blob_word(s, Place(4));
    if s.len() < header as usize {
        return false;
    }
    header == 24 || header == 32
}

fn header_place(sort: Sort) -> u32
    ensures { result ≡ header_place sort }
{
    match sort {
        Sort::Function => 8,
        Sort::Line => 16,
        Sort::Relocation => 24,
    }
}

// The offset where a part ends that begins here. Offsets are added in 64 bits, so that no sum wraps.
fn part_end(s: &[u8], sort: Sort, from: u64) -> Result<u64, Fault>
    requires { from < 1000000000000 }
    ensures { NextAs result s.now sort from }
{
    let at = header_place(sort);
    let behind = at + 4;
    if blob_word(s, Place(4)) < at + 8 {
        return Ok(from); // a header of 24 bytes, which has no words for relocations
    }
    if blob_word(s, Place(at)) as u64 != from {
        return Err(Fault::Parts);
    }
    let len = blob_word(s, Place(behind));
    if len % 4 != 0 {
        return Err(Fault::Parts);
    }
    let end = from + len as u64;
    Ok(end)
}

pub(crate) fn read_front(s: &[u8]) -> Result<Front, Fault>
    requires { length s.now ≤ 1000000 }
    ensures { FrontAs result s.now }
{
    if !header_ok(s) {
        return Err(Fault::HeaderLength);
    }
    let first = part_end(s, Sort::Function, 0)?;
    let second = part_end(s, Sort::Line, first)?;
    let third = part_end(s, Sort::Relocation, second)?;
    let start = blob_word(s, Place(4));
    let end = start as u64 + third;
    if end != s.len() as u64 {
        return Err(Fault::Parts);
    }
    let lines = start + first as u32;
    let relocations = start + second as u32;
    Ok(Front {
        functions: start,
        lines,
        relocations,
        end: end as u32,
    })
}
