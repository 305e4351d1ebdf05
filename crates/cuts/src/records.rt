// The words of one record, three at a time, each by its role: does each point to its own side of the cut?
ghost use Rattle.std.specs.Prelude.{◌≡◌, [], ◌∷◌, ◌<◌, ◌≤◌};
ghost use Rattle.cuts.specs.Sides.{keeps_to, sided};
ghost use Rattle.kindrows.specs.Codes.{role_of};
ghost use Rattle.paper.specs.rules.Choice.{times};
ghost use Rattle.paper.specs.rules.Kind.{row_of};
ghost use Rattle.paper.specs.rules.Table.{every_word};
ghost use Rattle.paper.specs.rules.Word.{word_at};
ghost use Rattle.paper.specs.terms.Reading.{record_in, roled, tail_roled};

use paper::{NameOff, Order, Place, TypeNo};
use rows::{
    entry_role, entry_words, is_name, is_reference, kind_of, name_role, once_role, once_words,
    third_role, vlen_of,
};

// A cut: the last type and the first name offset past the end of the first part, and on which side of it a record stands.
#[derive(Clone, Copy)]
pub struct Cut {
    pub types: TypeNo,
    pub strings: NameOff,
    pub behind: bool,
}

// On the first side a number below the cut, on the second 0 or one that is not.
fn on_side(behind: bool, below: bool, w: u32) -> bool
    ensures { result ≡ sided behind below w }
{
    if below {
        return !behind || w == 0;
    }
    behind
}

// A word by its role.
fn points_well(cut: Cut, role: u32, w: u32) -> bool
    ensures { result ≡ keeps_to cut (role_of role) w }
{
    let behind = cut.behind;
    if is_name(role) {
        return on_side(behind, w < cut.strings.0, w);
    }
    if is_reference(role) {
        return on_side(behind, w <= cut.types.0, w);
    }
    true
}

// Three words from a place on.
fn three_keep(order: Order, bytes: &[u8], cut: Cut, at: Place, r0: u32, r1: u32, r2: u32) -> bool
    requires { at.0 < 1000000 }
    ensures { result ≡ roled order (keeps_to cut) bytes.now at.0 (role_of r0 ∷ role_of r1 ∷ role_of r2 ∷ []) }
{
    let p = at.0;
    if !points_well(cut, r0, words::read(order, bytes, at)) {
        return false;
    }
    let second = p + 4;
    if !points_well(cut, r1, words::read(order, bytes, Place(second))) {
        return false;
    }
    let third = p + 8;
    points_well(cut, r2, words::read(order, bytes, Place(third)))
}

// So many entries from a place on. The words that an entry does not have are plain numbers to `three_keep`.
fn entries_keep(order: Order, bytes: &[u8], cut: Cut, at: Place, kind: u32, n: u32) -> bool
    requires { (at.0 ≤ 24) × (n < 65536) }
    ensures { result ≡ roled order (keeps_to cut) bytes.now at.0 (times n (row_of kind).each) }
{
    let step = 4 * entry_words(kind);
    let r0 = entry_role(kind, 0);
    let r1 = entry_role(kind, 1);
    let r2 = entry_role(kind, 2);
    for i in 0..n {
        let p = at.0 + step * i;
        if !three_keep(order, bytes, cut, Place(p), r0, r1, r2) {
            return false;
        }
    }
    true
}

// The words of a tail, behind the head.
fn tail_keeps(order: Order, bytes: &[u8], cut: Cut, info: u32) -> bool
    ensures { result ≡ tail_roled order (keeps_to cut) bytes.now info }
{
    let kind = kind_of(info);
    if !three_keep(
        order,
        bytes,
        cut,
        Place(12),
        once_role(kind, 0),
        once_role(kind, 1),
        once_role(kind, 2),
    ) {
        return false;
    }
    let from = 12 + 4 * once_words(kind);
    entries_keep(order, bytes, cut, Place(from), kind, vlen_of(info))
}

// Every word of the record that some bytes begin with points to its own side of the cut.
pub fn keeps(order: Order, bytes: &[u8], cut: Cut) -> bool
    ensures { result ≡ every_word (keeps_to cut) (record_in order bytes.now) }
{
    let info = words::read(order, bytes, Place(4));
    let kind = kind_of(info);
    if !three_keep(
        order,
        bytes,
        cut,
        Place(0),
        name_role(kind),
        0,
        third_role(kind),
    ) {
        return false;
    }
    tail_keeps(order, bytes, cut, info)
}
