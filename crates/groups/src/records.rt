// One record of a section: 47 and 48, each word by its role. What stands behind the words of its sort is not judged.
ghost use Rattle.std.specs.Prelude.{◌≡◌, [], ◌∷◌, ◌≤◌};
ghost use Rattle.exts.specs.Ext.{each_word, judged_number, name_word_ok, type_word_ok};
ghost use Rattle.groups.specs.Walking.{entry_fault, roles_in, row_for};
ghost use Rattle.views.specs.Shown.{table_by};

use exts::{Fault, Role, Sort};
use kindrows::FUNC;
use paper::{Place, TypeNo};
use views::{View, kind_at};
use words::blob_word;

// The words of a record behind its instruction offset; those that a sort does not have are plain numbers.
#[derive(Clone, Copy)]
pub(crate) struct Row {
    pub(crate) size: u32,
    pub(crate) second: Role,
    pub(crate) third: Role,
    pub(crate) fourth: Role,
}

// A line for each sort.
pub(crate) fn row_of(sort: Sort) -> Row
    ensures { result ≡ row_for sort }
{
    match sort {
        Sort::Function => Row {
            size: 8,
            second: Role::FuncType,
            third: Role::Plain,
            fourth: Role::Plain,
        },
        Sort::Line => Row {
            size: 16,
            second: Role::Name,
            third: Role::Name,
            fourth: Role::Plain,
        },
        Sort::Relocation => Row {
            size: 16,
            second: Role::AnyType,
            third: Role::Name,
            fourth: Role::Plain,
        },
    }
}

fn name_ok(role: Role, strings: usize, w: u32) -> bool
    ensures { result ≡ name_word_ok strings role w }
{
    match role {
        Role::Name => (w as usize) < strings,
        Role::Plain => true,
        Role::FuncType => true,
        Role::AnyType => true,
    }
}

fn type_ok(b: &[u8], index: &[u32], view: View, role: Role, w: u32) -> bool
    ensures { result ≡ type_word_ok (table_by [] b.now index.now view) role w }
{
    match role {
        Role::FuncType => kind_at(&b[..0], b, index, view, TypeNo(w)) == FUNC,
        Role::AnyType => w <= view.n,
        Role::Plain => true,
        Role::Name => true,
    }
}

fn names_ok(row: Row, strings: usize, u: u32, v: u32, w: u32) -> bool
    ensures { result ≡ each_word (name_word_ok strings) (roles_in row) (u ∷ v ∷ w ∷ []) }
{
    let second = row.second;
    let third = row.third;
    let fourth = row.fourth;
    name_ok(second, strings, u) & name_ok(third, strings, v) & name_ok(fourth, strings, w)
}

fn types_ok(b: &[u8], index: &[u32], view: View, row: Row, u: u32, v: u32, w: u32) -> bool
    ensures { result ≡ each_word (type_word_ok (table_by [] b.now index.now view)) (roles_in row) (u ∷ v ∷ w ∷ []) }
{
    let second = row.second;
    let third = row.third;
    let fourth = row.fourth;
    type_ok(b, index, view, second, u)
        & type_ok(b, index, view, third, v)
        & type_ok(b, index, view, fourth, w)
}

// The record at a place of a section.
pub(crate) fn judge_entry(
    b: &[u8],
    index: &[u32],
    view: View,
    strings: usize,
    s: &[u8],
    sort: Sort,
    at: u32,
) -> Result<(), Fault>
    requires { at ≤ 1000000 }
    ensures { judged_number result ≡ entry_fault (table_by [] b.now index.now view) strings s.now sort at }
{
    let row = row_of(sort);
    let second = at + 4;
    let third = at + 8;
    let fourth = at + 12;
    let u = blob_word(s, Place(second));
    let v = blob_word(s, Place(third));
    let w = blob_word(s, Place(fourth));
    if !names_ok(row, strings, u, v, w) {
        return Err(Fault::Named);
    }
    if !types_ok(b, index, view, row, u, v, w) {
        return Err(Fault::Typed);
    }
    Ok(())
}
