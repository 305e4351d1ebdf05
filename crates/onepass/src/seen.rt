// One record, by its words: nothing is due of it in phase 3, and its type has a state, or is open where one that it refers to is. STRANGE where
// that is not told. Each sort of record has a function of its own, which asks what its info word leaves to ask.
ghost use Rattle.std.specs.Prelude.{◌≡◌, true, [], ◌∷◌, ◌⊎◌, ◌/◌};
ghost use Rattle.glance.specs.Glance.{strange};
ghost use Rattle.onepass.specs.Seen.{MembersTold, Tells};
ghost use Rattle.paper.specs.rules.Choice.{member};
ghost use Rattle.paper.specs.rules.Word.{word_at};

use glance::{
    AWAITING, POINTER, STRANGE, behind_of, fits, int_whole, look, state_of, whole_bytes, whole_int,
};
use kindrows::{INT, UNION};
use layout::follows;
use naming::{inside, optional_ok};
use paper::{NameOff, Order, Place};
use rows::{kind_of, third_allowed, vlen_of};
use rules::{Due, nameless, phase3};
use tails::int_ok;

// A pointer.
fn pointer(order: Order, bytes: &[u8], base: &[u8], strings: &[u8], work: &[u32]) -> u32
    requires { word_at order bytes.now 4 ≡ 33554432 }
    ensures { Tells order base.now strings.now work.now bytes.now result }
{
    if !nameless(order, bytes, base, strings) {
        return STRANGE;
    }
    if behind_of(work, words::read(order, bytes, Place(8))) == 0 {
        return 0;
    }
    POINTER
}

// VOLATILE, CONST or RESTRICT.
fn qualifier(order: Order, bytes: &[u8], base: &[u8], strings: &[u8], work: &[u32]) -> u32
    requires { member (word_at order bytes.now 4) (150994944 ∷ 167772160 ∷ 184549376 ∷ []) ≡ true }
    ensures { Tells order base.now strings.now work.now bytes.now result }
{
    if !nameless(order, bytes, base, strings) {
        return STRANGE;
    }
    behind_of(work, words::read(order, bytes, Place(8)))
}

// A TYPEDEF, whose name may not be missing.
fn typedef<'a>(order: Order, bytes: &[u8], base: &'a [u8], strings: &'a [u8], work: &[u32]) -> u32
    requires { word_at order bytes.now 4 ≡ 134217728 }
    ensures { Tells order base.now strings.now work.now bytes.now result }
{
    let off = words::read(order, bytes, Place(0));
    if off == 0 {
        return STRANGE;
    }
    if !optional_ok(base, strings, off) {
        return STRANGE;
    }
    behind_of(work, words::read(order, bytes, Place(8)))
}

// A record that is a head and no more, and refers by its third word.
pub(crate) fn bare<'a>(
    order: Order,
    bytes: &[u8],
    base: &'a [u8],
    strings: &'a [u8],
    work: &[u32],
) -> u32
    ensures { Tells order base.now strings.now work.now bytes.now result }
{
    match words::read(order, bytes, Place(4)) {
        0x0200_0000 => pointer(order, bytes, base, strings, work),
        0x0800_0000 => typedef(order, bytes, base, strings, work),
        0x0900_0000 | 0x0a00_0000 | 0x0b00_0000 => qualifier(order, bytes, base, strings, work),
        _ => STRANGE,
    }
}

// An INT. All its words are read in front, the highest first, so that the length is tested once.
pub(crate) fn int(order: Order, bytes: &[u8], base: &[u8], strings: &[u8], work: &[u32]) -> u32
    requires { word_at order bytes.now 4 ≡ 16777216 }
    ensures { Tells order base.now strings.now work.now bytes.now result }
{
    let word = words::read(order, bytes, Place(12));
    let size = words::read(order, bytes, Place(8));
    let off = words::read(order, bytes, Place(0));
    if !third_allowed(INT, size) {
        return STRANGE;
    }
    if !inside(base, strings, NameOff(off)) {
        return STRANGE;
    }
    if !int_ok(word, size) {
        return STRANGE;
    }
    if !int_whole(word, size) {
        return 0;
    }
    whole_int(size)
}

// The members of a struct or a union without bit fields: their names, and what their types' states say, in one loop.
fn members<'a>(
    order: Order,
    bytes: &[u8],
    base: &'a [u8],
    strings: &'a [u8],
    info: u32,
    size: u32,
    work: &[u32],
) -> u32
    requires { (info ≡ word_at order bytes.now 4) × (member (info / 65536) (1024 ∷ 1280 ∷ []) ≡ true) × (size ≡ word_at order bytes.now 8) }
    ensures { MembersTold order base.now strings.now work.now bytes.now info result }
{
    let union = kind_of(info) == UNION;
    let mut before: u32 = 0;
    let mut all = true;
    for i in 0..vlen_of(info) {
        let p = 12 + 12 * i;
        let third = p + 8;
        let offset = words::read(order, bytes, Place(third));
        let second = p + 4;
        let u = words::read(order, bytes, Place(second));
        if !optional_ok(base, strings, words::read(order, bytes, Place(p))) {
            return STRANGE;
        }
        all = all & fits(state_of(work, u), offset, size) & follows(union, before, offset);
        before = offset;
    }
    if !all {
        return AWAITING;
    }
    whole_bytes(size)
}

// A struct or a union without bit fields.
pub(crate) fn group<'a>(
    order: Order,
    bytes: &[u8],
    base: &'a [u8],
    strings: &'a [u8],
    work: &[u32],
) -> u32
    requires { member (word_at order bytes.now 4 / 65536) (1024 ∷ 1280 ∷ []) ≡ true }
    ensures { Tells order base.now strings.now work.now bytes.now result }
{
    if !optional_ok(base, strings, words::read(order, bytes, Place(0))) {
        return STRANGE;
    }
    let info = words::read(order, bytes, Place(4));
    let size = words::read(order, bytes, Place(8));
    members(order, bytes, base, strings, info, size, work)
}

// A state, or 0 for a kind that is not looked at: its type stays open, and phases 4 to 6 speak of it.
fn told_or_open(s: u32) -> u32
    ensures { (result ≡ 0) ⊎ ((s ≡ strange → ⊥) × (result ≡ s)) }
{
    if s == STRANGE {
        return 0;
    }
    s
}

// Any other record, by the rules of phase 3 and a look.
pub(crate) fn other<'a>(
    order: Order,
    bytes: &[u8],
    base: &'a [u8],
    strings: &'a [u8],
    work: &[u32],
) -> u32
    ensures { Tells order base.now strings.now work.now bytes.now result }
{
    match phase3(order, bytes, base, strings) {
        None => told_or_open(look(order, bytes, work)),
        Some(Due::Head) => STRANGE,
        Some(Due::Named) => STRANGE,
        Some(Due::Tail) => STRANGE,
    }
}
