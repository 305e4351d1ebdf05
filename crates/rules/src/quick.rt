// The common records of which nothing is due, told by the words that their kind asks of and by no row. What is not told here the rules decide.
ghost use Rattle.std.specs.Prelude.{true, ◌⊎◌, ◌≡◌, ◌≤◌};
ghost use Rattle.std.proofs.Math.Option.{none};
ghost use Rattle.paper.specs.rules.Choice.{first_due, times};
ghost use Rattle.paper.specs.rules.Kind.{offset0, row_of};
ghost use Rattle.paper.specs.rules.KindNo.{STRUCT};
ghost use Rattle.paper.specs.rules.Word.{word_at};
ghost use Rattle.paper.specs.terms.Reading.{record_in, roled};
ghost use Rattle.pairs.specs.Lean.{name_ok_over, name_word_over};
ghost use Rattle.rules.specs.Phase.{rules_of};
ghost use Rattle.rules.specs.Quick.{Deciding, IntGood};

use kindrows::INT;
use naming::{inside, optional_ok};
use paper::{NameOff, Order, Place};
use rows::{info_of, third_allowed, vlen_of};
use tails::int_ok;

// The name of a record that may have none.
pub fn nameless(order: Order, bytes: &[u8], base: &[u8], strings: &[u8]) -> bool
    ensures { result ≡ name_ok_over base.now strings.now offset0 (word_at order bytes.now 0) }
{
    if words::read(order, bytes, Place(0)) != 0 {
        return false;
    }
    inside(base, strings, NameOff(0))
}

// The words of an INT. All are read in front, the highest first, so that the length is tested once.
fn int_good(order: Order, bytes: &[u8], base: &[u8], strings: &[u8]) -> bool
    ensures { result ≡ true → IntGood order base.now strings.now bytes.now }
{
    let word = words::read(order, bytes, Place(12));
    let size = words::read(order, bytes, Place(8));
    let off = words::read(order, bytes, Place(0));
    if !third_allowed(INT, size) {
        return false;
    }
    if !inside(base, strings, NameOff(off)) {
        return false;
    }
    int_ok(word, size)
}

// An ARRAY, whose third word is 0 and which has no name.
fn array_good(order: Order, bytes: &[u8], base: &[u8], strings: &[u8]) -> bool
    ensures { result ≡ true → (word_at order bytes.now 8 ≡ 0) × (name_ok_over base.now strings.now offset0 (word_at order bytes.now 0) ≡ true) }
{
    if words::read(order, bytes, Place(8)) != 0 {
        return false;
    }
    nameless(order, bytes, base, strings)
}

// A name that may not be missing decides by itself, where it is not.
fn once(off: u32) -> u32
    ensures { (result ≡ 0) ⊎ ((off ≡ 0 → ⊥) × (result ≡ 1)) }
{
    if off == 0 {
        return 0;
    }
    1
}

// How many names decide the record. A head is as long as a member and has its name where a member has it: it counts as one member more.
fn names_deciding(info: u32, off: u32) -> u32
    ensures { Deciding info off result }
{
    match info {
        // TYPEDEF, and FUNC of either linkage
        0x0800_0000 | 0x0c00_0000 => once(off),
        0x0c00_0001 => once(off),
        _ => match info / 65536 {
            // STRUCT and UNION, with a kind_flag or without
            0x0400 | 0x0500 | 0x8400 | 0x8500 => vlen_of(info) + 1,
            _ => 0,
        },
    }
}

// So many names, as those of a struct and its members stand.
fn spaced_ok<'a>(order: Order, bytes: &[u8], base: &'a [u8], strings: &'a [u8], n: u32) -> bool
    requires { n ≤ 65536 }
    ensures { result ≡ roled order (name_word_over base.now strings.now) bytes.now 0 (times n (row_of STRUCT).each) }
{
    for i in 0..n {
        if !optional_ok(base, strings, words::read(order, bytes, Place(12 * i))) {
            return false;
        }
    }
    true
}

// Nothing is due of a record that its names decide.
fn names_good<'a>(order: Order, bytes: &[u8], base: &'a [u8], strings: &'a [u8], info: u32) -> bool
    requires { info ≡ word_at order bytes.now 4 }
    ensures { result ≡ true → none ≡ first_due (rules_of base.now strings.now (record_in order bytes.now)) }
{
    let n = names_deciding(info, words::read(order, bytes, Place(0)));
    if n == 0 {
        return false;
    }
    spaced_ok(order, bytes, base, strings, n)
}

// Nothing is due of the record, for sure. A whole info word, or its upper half where a count is the lower, says kind, flag and spare bits at once.
pub(crate) fn quiet<'a>(order: Order, bytes: &[u8], base: &'a [u8], strings: &'a [u8]) -> bool
    ensures { result ≡ true → none ≡ first_due (rules_of base.now strings.now (record_in order bytes.now)) }
{
    let info = info_of(order, bytes);
    match info {
        // PTR, VOLATILE, CONST, RESTRICT
        0x0200_0000 | 0x0900_0000 | 0x0a00_0000 | 0x0b00_0000 => nameless(
            order, bytes, base, strings,
        ),
        // INT
        0x0100_0000 => int_good(order, bytes, base, strings),
        // ARRAY
        0x0300_0000 => array_good(order, bytes, base, strings),
        _ => names_good(order, bytes, base, strings, info),
    }
}
