// Words are raised by their roles, a group at a time: the head of a record, the words that stand once, an entry. Each is put at the
// place in the output that it has in the record's bytes.
ghost use Rattle.std.specs.Prelude.{◌≤◌, length};
ghost use Rattle.paper.specs.rules.Word.{word_at};
ghost use Rattle.shift.specs.Raising.{EntriesAsk, EntriesPut, GroupAsk, GroupPut, HeadPut, WordPut, WordRaised};

use paper::{NameOff, Order, Place, TypeNo};
use rows::{is_name, is_reference, name_role, third_role};

// By how much type numbers and name offsets are raised, and the byte order of the words that are.
#[derive(Clone, Copy)]
pub struct Shift {
    pub order: Order,
    pub types: TypeNo,
    pub names: NameOff,
}

// How many words a group has, three at the most, and the role of each.
#[derive(Clone, Copy)]
pub(crate) struct Group {
    pub(crate) words: u32,
    pub(crate) first: u32,
    pub(crate) second: u32,
    pub(crate) third: u32,
}

// A word raised by its role: a name, a reference, or a number that stays.
fn raised(by: Shift, role: u32, w: u32) -> u32
    ensures { WordRaised by role w result }
{
    if is_name(role) {
        return raises::raise_name(NameOff(w), by.names).0;
    }
    if is_reference(role) {
        return raises::raise_type(TypeNo(w), by.types).0;
    }
    w
}

// The word at a place.
fn raise_word(bytes: &[u8], at: Place, role: u32, by: Shift, out: &mut [u8])
    ensures { WordPut by role (word_at by.order bytes.now at.0) at.0 out.old out.new }
{
    let order = by.order;
    let w = raised(by, role, words::read(order, bytes, at));
    words::write(order, out, at, w);
}

// The head of a record of a kind: its name, its info word, its third word. Every record has the three, so that none is counted.
pub(crate) fn raise_head(bytes: &[u8], kind: u32, by: Shift, out: &mut [u8])
    requires { 12 ≤ length out.old }
    ensures { HeadPut by kind bytes.now out.old out.new }
{
    raise_word(bytes, Place(0), name_role(kind), by, out);
    raise_word(bytes, Place(4), 0, by, out);
    raise_word(bytes, Place(8), third_role(kind), by, out);
}

// The words of a group.
pub(crate) fn raise_group(bytes: &[u8], at: Place, g: Group, by: Shift, out: &mut [u8])
    requires { GroupAsk g at.0 (length out.old) }
    ensures { GroupPut by g bytes.now at.0 out.old out.new }
{
    let p = at.0;
    let n = g.words;
    if n == 0 {
        return;
    }
    raise_word(bytes, at, g.first, by, out);
    if n == 1 {
        return;
    }
    let second = p + 4;
    raise_word(bytes, Place(second), g.second, by, out);
    if n == 2 {
        return;
    }
    let third = p + 8;
    raise_word(bytes, Place(third), g.third, by, out);
}

// So many entries, one behind the other.
pub(crate) fn raise_entries(bytes: &[u8], at: Place, g: Group, v: u32, by: Shift, out: &mut [u8])
    requires { EntriesAsk g v at.0 (length out.old) }
    ensures { EntriesPut by g v bytes.now at.0 out.old out.new }
{
    let step = 4 * g.words;
    for i in 0..v {
        let p = at.0 + step * i;
        raise_group(bytes, Place(p), g, by, out);
    }
}
