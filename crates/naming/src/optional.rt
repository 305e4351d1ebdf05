// A name that may be missing, as a struct's and a member's may be, by its offset alone.
ghost use Rattle.std.specs.Prelude.{◌≡◌};
ghost use Rattle.paper.specs.rules.Kind.{names, offset0_or_identifier};
ghost use Rattle.pairs.specs.Lean.{name_word_over};

use crate::{inside, is_identifier, place_in, section_of};
use paper::NameOff;

// "offset 0 or an identifier". The offset 0 is told first: a name that is not there costs no look at a section.
pub fn optional_ok<'a>(base: &'a [u8], strings: &'a [u8], off: u32) -> bool
    ensures { result ≡ name_word_over base.now strings.now (names offset0_or_identifier) off }
{
    if off == 0 {
        return inside(base, strings, NameOff(0));
    }
    let section = section_of(base, strings, off);
    let from = place_in(base, off);
    if section.len() <= from as usize {
        return false;
    }
    is_identifier(section, NameOff(from))
}
