// The name at an offset, a part of the lent blob; where it lies; and the question whether there is none.
ghost use Rattle.std.specs.Prelude.{◌≡◌, ◌+◌, ◌≤◌, length};
ghost use Rattle.header.specs.Behind.{NamePartBehind, PartBehind, nameless_behind};
ghost use Rattle.header.specs.Part.{CutOut, Ending, Held, NamePart, PartIf, PartOf, nameless_by};
ghost use Rattle.paper.specs.rules.Name.{nameless};

use crate::first::{Sections, read, read_behind};
use paper::{NameOff, Part, Place, Report};

// How many bytes stand before the first zero byte, or the end.
fn until_zero(s: &[u8]) -> usize
    ensures { Ending s.now result }
{
    s.iter().position(|c| *c == 0).unwrap_or(s.len())
}

// No name can be had there, by what phase 1 finds: a report, or an offset past the strings.
fn nameless_by(found: Result<Sections, Report>, at: NameOff) -> bool
    ensures { result ≡ nameless_by found at.0 }
{
    match found {
        Ok(s) => !(at.0 < s.strings),
        Err(_) => true,
    }
}

// No name can be had there: the blob gets one of reports 1 to 5, or the offset is past the strings.
pub fn nameless(b: &[u8], at: NameOff) -> bool
    ensures { result ≡ nameless b.now at.0 }
{
    nameless_by(read(b), at)
}

// The same of a table behind a base of so many bytes, at an offset of its own strings.
pub fn nameless_behind(before: usize, b: &[u8], at: NameOff) -> bool
    ensures { result ≡ nameless_behind before b.now at.0 }
{
    nameless_by(read_behind(before, b), at)
}

// Where the name at an offset lies in the blob, and how long it is, told whether it is missing: then 0 and 0.
fn part_if(missing: bool, b: &[u8], at: NameOff) -> Part
    requires { Held missing b.now at.0 }
    ensures { PartIf result missing b.now at.0 }
{
    if missing {
        return Part {
            start: Place(0),
            length: 0,
        };
    }
    let start = 24 + words::blob_word(b, Place(12)) + at.0;
    let from = start as usize;
    let n = until_zero(&b[from..]);
    Part {
        start: Place(start),
        length: n as u32,
    }
}

// Where the name at an offset lies in the blob, and how long it is; 0 and 0 where there is none.
pub fn part(b: &[u8], at: NameOff) -> Part
    ensures { PartOf result b.now at.0 }
{
    part_if(nameless(b, at), b, at)
}

// The same of a table behind a base of so many bytes, at an offset of its own strings.
pub fn part_behind(before: usize, b: &[u8], at: NameOff) -> Part
    ensures { PartBehind result before b.now at.0 }
{
    part_if(nameless_behind(before, b, at), b, at)
}

// A part of a blob, at its very place.
fn cut_out(b: &[u8], p: Part) -> &[u8]
    requires { p.start.0 + p.length ≤ length b.now }
    ensures { CutOut result b.entry p }
{
    let from = p.start.0 as usize;
    let end = from + p.length as usize;
    &b[from..end]
}

// The part of the blob from the offset up to its first zero byte; empty where there is no name.
pub fn name(b: &[u8], at: NameOff) -> &[u8]
    ensures { NamePart result b.entry at.0 }
{
    cut_out(b, part(b, at))
}

// The same of a table behind a base of so many bytes, at an offset of its own strings.
pub fn name_behind(before: usize, b: &[u8], at: NameOff) -> &[u8]
    ensures { NamePartBehind result before b.entry at.0 }
{
    cut_out(b, part_behind(before, b, at))
}
