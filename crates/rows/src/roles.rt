// The words of a record by kind: how many there are, the role of each, and where the size comes from.
ghost use Rattle.std.specs.Prelude.{◌≡◌, length};
ghost use Rattle.paper.specs.rules.Kind.{row_of};
ghost use Rattle.paper.specs.rules.Table.{tail_length};
ghost use Rattle.rows.specs.Numbers.{only_numbers};
ghost use Rattle.kindrows.specs.Codes.{held_place, is_held_code, is_name_code, is_ref_code, name_code, role_at, role_code, rule_code, size_code};

use crate::columns::column;
use crate::info::{kind_of, vlen_of};
use kindrows::{head_row, tail_row};

// The role of a head's third word.
pub fn third_role(kind: u32) -> u32
    ensures { result ≡ role_code (row_of kind).third_role }
{
    column(head_row(kind), 0x1_00_00)
}

// The role of a head's name: the code of its rule.
pub fn name_role(kind: u32) -> u32
    ensures { result ≡ name_code (row_of kind).name }
{
    column(head_row(kind), 0x1_00)
}

// How many words of a tail stand once.
pub fn once_words(kind: u32) -> u32
    ensures { result ≡ length (row_of kind).once }
{
    column(tail_row(kind), 0x1_00_00_00_00_00_00_00)
}

// The role of one of them; a plain number where there is none.
pub fn once_role(kind: u32, i: u32) -> u32
    ensures { result ≡ role_at (row_of kind).once i }
{
    match i {
        0 => column(tail_row(kind), 0x1_00_00_00_00_00_00),
        1 => column(tail_row(kind), 0x1_00_00_00_00_00),
        2 => column(tail_row(kind), 0x1_00_00_00_00),
        _ => 0,
    }
}

// How many words an entry of a tail has.
pub fn entry_words(kind: u32) -> u32
    ensures { result ≡ length (row_of kind).each }
{
    column(tail_row(kind), 0x1_00_00_00)
}

// The role of one of them; a plain number where there is none.
pub fn entry_role(kind: u32, i: u32) -> u32
    ensures { result ≡ role_at (row_of kind).each i }
{
    match i {
        0 => column(tail_row(kind), 0x1_00_00),
        1 => column(tail_row(kind), 0x1_00),
        2 => column(tail_row(kind), 1),
        _ => 0,
    }
}

// The place in a record of its first by-value reference; 0 where the kind has none.
pub fn held_place(kind: u32) -> u32
    ensures { result ≡ held_place (row_of kind) }
{
    column(head_row(kind), 0x1_00_00_00_00_00_00)
}

// Where a kind's size comes from.
pub fn size_rule(kind: u32) -> u32
    ensures { result ≡ size_code (row_of kind).size }
{
    column(head_row(kind), 1)
}

// How many words follow a head with this info word.
pub fn tail_words(info: u32) -> u32
    ensures { result ≡ tail_length info }
{
    let kind = kind_of(info);
    once_words(kind) + vlen_of(info) * entry_words(kind)
}

// The tail of a kind has no name and no reference: no role stands in its row.
pub fn only_numbers(kind: u32) -> bool
    ensures { result ≡ only_numbers (row_of kind) }
{
    let row = tail_row(kind);
    row / 0x1_00_00_00_00 % 0x1_00_00_00 + row % 0x1_00_00_00 == 0
}

// A code of a name's role.
pub fn is_name(role: u32) -> bool
    ensures { result ≡ is_name_code role }
{
    1 <= role && role <= 6
}

// A code of a reference's role, by value or not.
pub fn is_reference(role: u32) -> bool
    ensures { result ≡ is_ref_code role }
{
    7 <= role && role <= 18
}

// A code of a by-value reference's role.
pub fn is_held(role: u32) -> bool
    ensures { result ≡ is_held_code role }
{
    13 <= role && role <= 18
}

// The number of a reference's rule, from 0 on.
pub fn rule_of(role: u32) -> u32
    ensures { result ≡ rule_code role }
{
    if role < 7 {
        return 0;
    }
    let from = role - 7;
    from % 6
}
