// Phase 6 asks for sizes: whether a type has one, and whether a section's entry is long enough for its variable.
ghost use Rattle.std.specs.Prelude.{◌≡◌};
ghost use Rattle.sizes.specs.Measure.{Measures};
ghost use Rattle.paper.specs.rules.Section.{covers_size};
ghost use Rattle.layout.specs.Told.{recalled, sized, variable_told};
ghost use Rattle.paper.specs.rules.Choice.{is_some};

use paper::{Sized, TypeNo};
use recall::size_told;
use views::View;

// The size of a type, as the slice tells it. A number above n has none, as its record has no kind: no caller has to show that its number is inside.
pub(crate) fn size_of<'a>(
    base: &'a [u8],
    b: &'a [u8],
    index: &[u32],
    view: View,
    memo: &[u32],
    t: TypeNo,
) -> Sized
    ensures { Measures result (sized (recalled base.now b.now index.now view memo.now) t.0) }
{
    size_told(base, b, index, view, memo, t)
}

// "must have a size", which may overflow.
pub(crate) fn has_size<'a>(
    base: &'a [u8],
    b: &'a [u8],
    index: &[u32],
    view: View,
    memo: &[u32],
    t: TypeNo,
) -> bool
    ensures { result ≡ is_some (sized (recalled base.now b.now index.now view memo.now) t.0) }
{
    matches!(
        size_of(base, b, index, view, memo, t),
        Sized::Exact(_) | Sized::Overflow
    )
}

// A size that does not overflow.
pub(crate) fn has_small_size<'a>(
    base: &'a [u8],
    b: &'a [u8],
    index: &[u32],
    view: View,
    memo: &[u32],
    t: TypeNo,
) -> bool
    ensures { result ≡ variable_told (recalled base.now b.now index.now view memo.now) t.0 }
{
    matches!(size_of(base, b, index, view, memo, t), Sized::Exact(_))
}

// So many bytes are at least a type's exact size, where it has one; no number of 32 bits reaches one that overflows.
pub(crate) fn covers<'a>(
    base: &'a [u8],
    b: &'a [u8],
    index: &[u32],
    view: View,
    memo: &[u32],
    t: TypeNo,
    size: u32,
) -> bool
    ensures { result ≡ covers_size size (sized (recalled base.now b.now index.now view memo.now) t.0) }
{
    match size_of(base, b, index, view, memo, t) {
        Sized::Exact(needed) => needed <= size,
        Sized::NoSize => true,
        Sized::Overflow => false,
        Sized::Lost => false,
        Sized::TooFar => false,
    }
}
