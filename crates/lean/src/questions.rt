// Size and name over a base: each read in the blob that holds it.
ghost use Rattle.std.specs.Prelude.{◌≡◌};
ghost use Rattle.lean.specs.Asked.{LyingOf, NameLeaning, SideBy, SideOf};
ghost use Rattle.pairs.specs.Lean.{nameless_over, size_over};
ghost use Rattle.paper.specs.rules.Answer.{sized_as_paper};

use header::{name, name_behind, other_opening, part, part_behind, read, read_behind};
use paper::{NameOff, Part, Sized, TypeNo};

// The exact size of a type of either table, by the index that a check of both has left; numbers up to `before` are the base's.
pub fn size_leaning<'a>(
    base: &'a [u8],
    before: u32,
    own: &'a [u8],
    index: &[u32],
    t: TypeNo,
) -> Sized
    ensures { sized_as_paper result ≡ size_over base.now before own.now index.now t.0 }
{
    sizes::size_over(base, before, own, index, t)
}

// Whose strings hold an offset, and which of theirs it is.
#[derive(Clone, Copy)]
pub(crate) enum Side {
    Base(NameOff),
    Own(NameOff),
}

// By the lengths of both string sections. A difference is taken, since their sum can pass 32 bits.
fn side_by(before: u32, strings: u32, at: NameOff) -> Option<Side>
    ensures { SideBy result before strings at.0 }
{
    if at.0 < before {
        return Some(Side::Base(at));
    }
    let rest = at.0 - before;
    if rest < strings {
        return Some(Side::Own(NameOff(rest)));
    }
    None
}

// None, where either blob would get one of reports 1 to 5, or 26.
fn side_of(base: &[u8], own: &[u8], at: NameOff) -> Option<Side>
    ensures { SideOf result base.now own.now at.0 }
{
    if other_opening(base, own) {
        return None;
    }
    let Ok(b) = read(base) else {
        return None;
    };
    let Ok(o) = read_behind(base.len(), own) else {
        return None;
    };
    side_by(b.strings, o.strings, at)
}

// No name can be had there: either blob gets one of reports 1 to 5, or 26, or the offset is past both tables' strings.
pub fn nameless_leaning(base: &[u8], own: &[u8], at: NameOff) -> bool
    ensures { result ≡ nameless_over base.now own.now at.0 }
{
    side_of(base, own, at).is_none()
}

// Where a name lies, and in which blob.
#[derive(Clone, Copy)]
pub enum Lying {
    InBase(Part),
    InOwn(Part),
}

// Where the name at an offset of both lies.
pub fn part_leaning(base: &[u8], own: &[u8], at: NameOff) -> Option<Lying>
    ensures { LyingOf result base.now own.now at.0 }
{
    match side_of(base, own, at)? {
        Side::Base(o) => Some(Lying::InBase(part(base, o))),
        Side::Own(o) => Some(Lying::InOwn(part_behind(base.len(), own, o))),
    }
}

// The part of the base or of the other blob, whichever holds the offset, up to its first zero byte; where there is no name, no bytes of the other blob.
pub fn name_leaning<'a>(base: &'a [u8], own: &'a [u8], at: NameOff) -> &'a [u8]
    ensures { NameLeaning result base.entry own.entry at.0 }
{
    match side_of(base, own, at) {
        Some(Side::Base(o)) => name(base, o),
        Some(Side::Own(o)) => name_behind(base.len(), own, o),
        None => &own[..0],
    }
}
