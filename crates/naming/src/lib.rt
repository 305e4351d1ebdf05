// Report 11: "a name breaks the list". A record's words are gone over three at a time, each by its role.
// Names stand in two string sections, one behind the other: `base` is that of the table that is leaned on, of no bytes where there is none.
#![tactic(auto)]

mod optional; // a name that may be missing

ghost use Rattle.std.specs.Prelude.{◌≡◌, true, [], ◌∷◌, ◌+◌, ◌<◌, ◌≤◌, ltb, length};
ghost use Rattle.paper.specs.rules.Choice.{times};
ghost use Rattle.paper.specs.rules.Kind.{row_of};
ghost use Rattle.pairs.specs.Lean.{name_word_over, names_over};
ghost use Rattle.paper.specs.rules.Name.{is_identifier, name_in};
ghost use Rattle.paper.specs.rules.Names.{name_fits};
ghost use Rattle.paper.specs.terms.Reading.{record_in, roled, tail_roled};
ghost use Rattle.paper.specs.rules.Word.{word_at};
ghost use Rattle.kindrows.specs.Codes.{is_name_code, role_of};
ghost use Rattle.naming.specs.RuleOf.{name_rule_of};
ghost use Rattle.naming.specs.Sections.{place_in, section_of};

use idents::{identifier, section_name};
pub use optional::optional_ok;
use paper::{NameOff, Order, Place};
use rows::{
    entry_role, entry_words, is_name, kind_of, name_role, once_role, once_words, only_numbers,
    vlen_of,
};

// The name at an offset is an identifier, however long.
fn is_identifier(strings: &[u8], at: NameOff) -> bool
    ensures { result ≡ is_identifier (name_in strings.now at.0) }
{
    match identifier(strings, at) {
        Some(_) => true,
        None => false,
    }
}

// What a name's rule asks of an offset through both sections and the name that stands at its place in one.
fn fits(strings: &[u8], rule: u32, at: NameOff, off: NameOff) -> bool
    requires { at.0 < length strings.now }
    ensures { result ≡ name_fits (name_rule_of rule) off.0 (name_in strings.now at.0) }
{
    let from = at.0 as usize;
    let whole = off.0;
    match rule {
        1 => whole == 0,
        2 => true,
        3 => whole == 0 || is_identifier(strings, at),
        4 => is_identifier(strings, at),
        5 => strings[from] != 0,
        _ => section_name(strings, at),
    }
}

// The section that an offset through both lies in, and its place there: choices that cost no branch, so that the rule is asked in one place.
fn section_of<'a>(base: &'a [u8], strings: &'a [u8], off: u32) -> &'a [u8]
    ensures { result.now ≡ section_of base.now strings.now off }
{
    if (off as usize) < base.len() {
        return base;
    }
    strings
}

fn place_in(base: &[u8], off: u32) -> u32
    ensures { result ≡ place_in base.now off }
{
    let k = off as usize;
    let n = base.len();
    if k < n {
        return off;
    }
    (k - n) as u32
}

// An offset through both lies in one of them.
pub fn inside(base: &[u8], strings: &[u8], off: NameOff) -> bool
    ensures { result ≡ ltb off.0 (length base.now + length strings.now) }
{
    let k = off.0 as usize;
    let n = base.len();
    if k < n {
        return true;
    }
    k - n < strings.len()
}

// The word at a place, a name, is one that its rule allows. Its offset counts through both string sections.
fn name_ok<'a>(
    order: Order,
    bytes: &[u8],
    base: &'a [u8],
    strings: &'a [u8],
    at: Place,
    role: u32,
) -> bool
    requires { is_name_code role ≡ true }
    ensures { result ≡ name_word_over base.now strings.now (role_of role) (word_at order bytes.now at.0) }
{
    let off = words::read(order, bytes, at);
    let section = section_of(base, strings, off);
    let from = place_in(base, off);
    if section.len() <= from as usize {
        return false;
    }
    fits(section, role, NameOff(from), NameOff(off))
}

// The same of a word of any role: what is no name passes. The test stands by itself, so that only a name costs a call.
fn word_ok<'a>(
    order: Order,
    bytes: &[u8],
    base: &'a [u8],
    strings: &'a [u8],
    at: Place,
    role: u32,
) -> bool
    ensures { result ≡ name_word_over base.now strings.now (role_of role) (word_at order bytes.now at.0) }
{
    if !is_name(role) {
        return true;
    }
    name_ok(order, bytes, base, strings, at, role)
}

// Three words from a place on.
fn three_ok<'a>(
    order: Order,
    bytes: &[u8],
    base: &'a [u8],
    strings: &'a [u8],
    at: Place,
    r0: u32,
    r1: u32,
    r2: u32,
) -> bool
    requires { at.0 < 1000000 }
    ensures { result ≡ roled order (name_word_over base.now strings.now) bytes.now at.0 (role_of r0 ∷ role_of r1 ∷ role_of r2 ∷ []) }
{
    let p = at.0;
    if !word_ok(order, bytes, base, strings, at, r0) {
        return false;
    }
    let second = p + 4;
    if !word_ok(order, bytes, base, strings, Place(second), r1) {
        return false;
    }
    let third = p + 8;
    word_ok(order, bytes, base, strings, Place(third), r2)
}

// So many entries from a place on. The words that an entry does not have are plain numbers to `three_ok`.
fn entries_ok<'a>(
    order: Order,
    bytes: &[u8],
    base: &'a [u8],
    strings: &'a [u8],
    at: Place,
    kind: u32,
    n: u32,
) -> bool
    requires { (at.0 ≤ 24) × (n < 65536) }
    ensures { result ≡ roled order (name_word_over base.now strings.now) bytes.now at.0 (times n (row_of kind).each) }
{
    let step = 4 * entry_words(kind);
    let r0 = entry_role(kind, 0);
    let r1 = entry_role(kind, 1);
    let r2 = entry_role(kind, 2);
    for i in 0..n {
        let p = at.0 + step * i;
        if !three_ok(order, bytes, base, strings, Place(p), r0, r1, r2) {
            return false;
        }
    }
    true
}

// The names of a tail, behind the head. Most kinds have none there, which one look at the row tells.
fn tail_names_ok<'a>(
    order: Order,
    bytes: &[u8],
    base: &'a [u8],
    strings: &'a [u8],
    info: u32,
) -> bool
    ensures { result ≡ tail_roled order (name_word_over base.now strings.now) bytes.now info }
{
    let kind = kind_of(info);
    if only_numbers(kind) {
        return true;
    }
    if !three_ok(
        order,
        bytes,
        base,
        strings,
        Place(12),
        once_role(kind, 0),
        once_role(kind, 1),
        once_role(kind, 2),
    ) {
        return false;
    }
    let from = 12 + 4 * once_words(kind);
    entries_ok(
        order,
        bytes,
        base,
        strings,
        Place(from),
        kind,
        vlen_of(info),
    )
}

// Every name of the record keeps to the list. Of the head only the name is one.
pub fn names_ok<'a>(order: Order, bytes: &[u8], base: &'a [u8], strings: &'a [u8]) -> bool
    ensures { result ≡ names_over base.now strings.now (record_in order bytes.now) }
{
    let info = words::read(order, bytes, Place(4));
    if !name_ok(
        order,
        bytes,
        base,
        strings,
        Place(0),
        name_role(kind_of(info)),
    ) {
        return false;
    }
    tail_names_ok(order, bytes, base, strings, info)
}
