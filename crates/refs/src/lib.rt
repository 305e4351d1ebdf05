// Phase 4, report 13: "a reference above n or to a forbidden kind". A record's words are gone over three at a time, each by its role.
#![tactic(auto)]

mod quick; // the common records whose references are good, with no look at a row

ghost use Rattle.std.specs.Prelude.{◌≡◌, true, [], ◌∷◌, ◌<◌, ◌≤◌};
ghost use Rattle.refs.specs.Refers.{ref_by, ref_rule_of};
ghost use Rattle.paper.specs.rules.Choice.{times};
ghost use Rattle.paper.specs.rules.Kind.{row_of};
ghost use Rattle.paper.specs.terms.Reading.{record_in, roled, tail_roled};
ghost use Rattle.paper.specs.rules.References.{is_plain, may_be_kind, ref_word_ok, refs_ok};
ghost use Rattle.paper.specs.rules.Kind.{taggable};
ghost use Rattle.paper.specs.rules.Word.{word_at};
ghost use Rattle.kindrows.specs.Codes.{is_ref_code, role_of};
ghost use Rattle.views.specs.Shown.{table_by};

use kindrows::{DATASEC, DECL_TAG, FUNC, FUNC_PROTO, INT, STRUCT, TYPEDEF, UNION, VAR};
use paper::{Place, TypeNo};
use quick::sure;
use rows::{
    entry_role, entry_words, is_known, is_reference, kind_of, once_role, once_words, only_numbers,
    rule_of, third_role, vlen_of,
};
use views::{View, kind_at};

// "Plain kinds are all but FUNC, VAR, DATASEC, DECL_TAG".
fn is_plain(kind: u32) -> bool
    ensures { result ≡ is_plain kind }
{
    if !is_known(kind) {
        return false;
    }
    if kind == VAR {
        return false;
    }
    !matches!(kind, FUNC | DATASEC | DECL_TAG)
}

// "DECL_TAG: STRUCT, UNION, FUNC, VAR, TYPEDEF".
fn is_taggable(kind: u32) -> bool
    ensures { result ≡ may_be_kind taggable kind }
{
    matches!(kind, STRUCT | UNION | TYPEDEF | FUNC | VAR)
}

// What a reference's rule asks of a type and its kind.
fn by_rule(rule: u32, t: u32, kind: u32) -> bool
    ensures { result ≡ ref_by (ref_rule_of rule) t kind }
{
    match rule {
        0 => t == 0 || is_plain(kind),
        1 => is_plain(kind),
        2 => kind == INT,
        3 => kind == FUNC_PROTO,
        4 => kind == VAR,
        _ => is_taggable(kind),
    }
}

// The word at a place, a reference, is one that its rule allows.
fn ref_ok<'a>(
    base: &'a [u8],
    b: &'a [u8],
    index: &[u32],
    view: View,
    bytes: &[u8],
    at: Place,
    role: u32,
) -> bool
    requires { is_ref_code role ≡ true }
    ensures { result ≡ ref_word_ok (table_by base.now b.now index.now view) (role_of role) (word_at view.order bytes.now at.0) }
{
    let order = view.order;
    let t = words::read(order, bytes, at);
    by_rule(rule_of(role), t, kind_at(base, b, index, view, TypeNo(t)))
}

// The same of a word of any role: what is no reference passes. The test stands by itself, so that only a reference costs a call.
fn word_ok<'a>(
    base: &'a [u8],
    b: &'a [u8],
    index: &[u32],
    view: View,
    bytes: &[u8],
    at: Place,
    role: u32,
) -> bool
    ensures { result ≡ ref_word_ok (table_by base.now b.now index.now view) (role_of role) (word_at view.order bytes.now at.0) }
{
    if !is_reference(role) {
        return true;
    }
    ref_ok(base, b, index, view, bytes, at, role)
}

// Three words from a place on.
fn three_ok<'a>(
    base: &'a [u8],
    b: &'a [u8],
    index: &[u32],
    view: View,
    bytes: &[u8],
    at: Place,
    r0: u32,
    r1: u32,
    r2: u32,
) -> bool
    requires { at.0 < 1000000 }
    ensures { result ≡ roled view.order (ref_word_ok (table_by base.now b.now index.now view)) bytes.now at.0 (role_of r0 ∷ role_of r1 ∷ role_of r2 ∷ []) }
{
    let p = at.0;
    if !word_ok(base, b, index, view, bytes, at, r0) {
        return false;
    }
    let second = p + 4;
    if !word_ok(base, b, index, view, bytes, Place(second), r1) {
        return false;
    }
    let third = p + 8;
    word_ok(base, b, index, view, bytes, Place(third), r2)
}

// So many entries from a place on.
fn entries_ok<'a>(
    base: &'a [u8],
    b: &'a [u8],
    index: &[u32],
    view: View,
    bytes: &[u8],
    at: Place,
    kind: u32,
    v: u32,
) -> bool
    requires { (at.0 ≤ 24) × (v < 65536) }
    ensures { result ≡ roled view.order (ref_word_ok (table_by base.now b.now index.now view)) bytes.now at.0 (times v (row_of kind).each) }
{
    let step = 4 * entry_words(kind);
    let r0 = entry_role(kind, 0);
    let r1 = entry_role(kind, 1);
    let r2 = entry_role(kind, 2);
    for i in 0..v {
        let p = at.0 + step * i;
        if !three_ok(base, b, index, view, bytes, Place(p), r0, r1, r2) {
            return false;
        }
    }
    true
}

// The references of a tail, behind the head. Most kinds have none there, which one look at the row tells.
fn tail_refs_ok<'a>(
    base: &'a [u8],
    b: &'a [u8],
    index: &[u32],
    view: View,
    bytes: &[u8],
    info: u32,
) -> bool
    ensures { result ≡ tail_roled view.order (ref_word_ok (table_by base.now b.now index.now view)) bytes.now info }
{
    let kind = kind_of(info);
    if only_numbers(kind) {
        return true;
    }
    let r0 = once_role(kind, 0);
    let r1 = once_role(kind, 1);
    let r2 = once_role(kind, 2);
    if !three_ok(base, b, index, view, bytes, Place(12), r0, r1, r2) {
        return false;
    }
    let from = 12 + 4 * once_words(kind);
    entries_ok(
        base,
        b,
        index,
        view,
        bytes,
        Place(from),
        kind,
        vlen_of(info),
    )
}

// The same of the whole record. Of the head only the third word can be a reference.
fn by_roles<'a>(base: &'a [u8], b: &'a [u8], index: &[u32], view: View, bytes: &[u8]) -> bool
    ensures { result ≡ refs_ok (table_by base.now b.now index.now view) (record_in view.order bytes.now) }
{
    let order = view.order;
    let info = words::read(order, bytes, Place(4));
    let role = third_role(kind_of(info));
    if is_reference(role) {
        if !ref_ok(base, b, index, view, bytes, Place(8), role) {
            return false;
        }
    }
    tail_refs_ok(base, b, index, view, bytes, info)
}

// Every reference of the record keeps to the list. The common records are told first; the words by their roles are handed on from a
// function of their own, so that what they are lent costs the others nothing.
pub fn refs_ok<'a>(base: &'a [u8], b: &'a [u8], index: &[u32], view: View, bytes: &[u8]) -> bool
    ensures { result ≡ refs_ok (table_by base.now b.now index.now view) (record_in view.order bytes.now) }
{
    if sure(base, b, index, view, bytes) {
        return true;
    }
    by_roles(base, b, index, view, bytes)
}
