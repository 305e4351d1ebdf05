// What stands before a word of a type's line, and whether the word is a name.
use rows::{entry_role, entry_words, is_name};

// A line for each word of each kind that stands in its text: the count of its entries, its third word, and the words of its tail, which repeat
// where it has entries. A count and a third word with no line's text are not written: they can only be 0.
pub const LABELS: [u8; 269] = *b"\
\n\n\n\n\n\
\nsize\nbits\n\n\n\
\nto\n\n\n\n\
\n\nof\nindex\ncount\n\
members\nsize\n\ntype\nat\n\
members\nsize\n\ntype\nat\n\
values\nsize\n\n=\n\n\
\n\n\n\n\n\
\nto\n\n\n\n\
\nto\n\n\n\n\
\nto\n\n\n\n\
\nto\n\n\n\n\
linkage\nof\n\n\n\n\
parameters\nreturns\n\ntype\n\n\
\nof\nlinkage\n\n\n\
entries\nsize\ntype\nat\nsize\n\
\nsize\n\n\n\n\
\non\ncomponent\n\n\n\
\nto\n\n\n\n\
values\nsize\n\nlow\nhigh\n";

// Which words of a type's line these are.
pub(crate) const COUNT: u32 = 0;

pub(crate) const THIRD: u32 = 1;

pub(crate) const TAIL: u32 = 2;

// A word of a kind's text: the line of its label, whether it begins an entry, and whether it is a name.
#[derive(Clone, Copy)]
pub(crate) struct Slot {
    pub(crate) line: u32,
    pub(crate) is_entry: bool,
    pub(crate) is_name: bool,
}

// The line of a label. A kind has five bits.
pub(crate) fn line_of(kind: u32, word: u32) -> u32 {
    kind % 32 * 5 + word % 5
}

// A word of the tail.
pub(crate) fn slot_of(kind: u32, i: u32) -> Slot {
    let each = entry_words(kind);
    if each == 0 {
        return Slot {
            line: line_of(kind, TAIL + i % 3),
            is_entry: false,
            is_name: false,
        };
    }
    let k = i % each;
    Slot {
        line: line_of(kind, TAIL + k % 3),
        is_entry: k == 0,
        is_name: is_name(entry_role(kind, k)),
    }
}
