// One look at a VAR, or at a DATASEC.
ghost use Rattle.std.specs.Prelude.{◌≡◌, true, ◌⊎◌};
ghost use Rattle.glance.specs.Glance.{Looks, covers, section_fits};
ghost use Rattle.paper.specs.rules.KindNo.{DATASEC, VAR};
ghost use Rattle.paper.specs.rules.Table.{kind_of};
ghost use Rattle.paper.specs.terms.Reading.{record_in};

use crate::arrays::is_sized;
use crate::looks::{NOT_PLAIN, STORED, state_of};
use layout::placed;
use paper::{Order, Place};
use rows::tail_words;

// A VAR: it has its type's size, and is no plain type.
pub(crate) fn variable(order: Order, bytes: &[u8], work: &[u32]) -> u32
    requires { kind_of (record_in order bytes.now) ≡ VAR }
    ensures { (result ≡ 0) ⊎ Looks work.now (record_in order bytes.now) result }
{
    let s = state_of(work, words::read(order, bytes, Place(8)));
    if !is_sized(s) {
        return 0;
    }
    let z = s / 16;
    16 * z + STORED
}

// An entry's variable is one of which the size is told, and the entry is no smaller.
fn covers(s: u32, size: u32) -> bool
    ensures { result ≡ covers s size }
{
    if s % 16 != STORED {
        return false;
    }
    s / 16 <= size
}

// The entries of a section, by their variables' states.
fn entries_fit(order: Order, bytes: &[u8], work: &[u32]) -> bool
    ensures { result ≡ true → section_fits work.now (record_in order bytes.now) ≡ true }
{
    let end = words::read(order, bytes, Place(8));
    let n = tail_words(words::read(order, bytes, Place(4))) / 3;
    let mut free: u64 = 0;
    for i in 0..n {
        let p = 12 + 12 * i;
        let third = p + 8;
        let size = words::read(order, bytes, Place(third));
        let second = p + 4;
        let from = words::read(order, bytes, Place(second));
        let s = state_of(work, words::read(order, bytes, Place(p)));
        if !covers(s, size) {
            return false;
        }
        if !placed(end, free, from, size) {
            return false;
        }
        free = (from as u64) + (size as u64);
    }
    true
}

// A DATASEC.
pub(crate) fn section(order: Order, bytes: &[u8], work: &[u32]) -> u32
    requires { kind_of (record_in order bytes.now) ≡ DATASEC }
    ensures { (result ≡ 0) ⊎ Looks work.now (record_in order bytes.now) result }
{
    if !entries_fit(order, bytes, work) {
        return 0;
    }
    NOT_PLAIN
}
