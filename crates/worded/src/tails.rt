// The words behind a record's head, each by its role.
use crate::Look;
use crate::heads::put_offset;
use crate::referents::put_referent;
use kindrows::{ENUM64, INT, STRUCT, UNION};
use lines::Out;
use paper::NameOff;
use rows::{
    entry_role, entry_words, flag_of, is_held, is_name, is_reference, kind_of, once_role,
    once_words,
};
use texts::line;

// Which word of a tail: its entry, from 1, unless it stands once; its number there, from 0; its role.
#[derive(Clone, Copy)]
pub(crate) struct Spot {
    entry: Option<u64>,
    which: u32,
    pub role: u32, // a role as the rows number them
}

pub(crate) fn spot_of(kind: u32, i: u32) -> Spot {
    let once = once_words(kind);
    if i < once {
        return Spot {
            entry: None,
            which: i,
            role: once_role(kind, i),
        };
    }
    let each = entry_words(kind);
    if each == 0 {
        return Spot {
            entry: None,
            which: 3,
            role: 0,
        };
    }
    let j = i - once;
    Spot {
        entry: Some(u64::from(j / each) + 1),
        which: j % each,
        role: entry_role(kind, j % each),
    }
}

// A word with this role is one that the report's rule is about: every word, names, references, those by value, none.
pub(crate) fn is_about(number: u32, role: u32) -> bool {
    match number {
        6 | 12 | 15 => true,
        11 => is_name(role),
        13 => is_reference(role),
        14 => is_held(role),
        _ => false,
    }
}

// The entry that a word stands in, by the word for the kind's entries.
fn put_entry_number(out: &mut Out, kind: u32, entry: Option<u64>) {
    let Some(entry) = entry else {
        return;
    };
    let entries =
        b"\n\n\n\nmember \nmember \nvalue \n\n\n\n\n\n\nparameter \n\nentry \n\n\n\nvalue \n";
    out.put(line(entries, kind));
    out.put_wide(entry);
    out.put(b": ");
}

// A word with its label: three lines for each kind, from 0 on, for the words that stand once or for those of an entry, since no
// kind has both. A name has its label by its role.
fn put_labelled(out: &mut Out, kind: u32, which: u32, w: u32) {
    let labels = b"\n\n\n\
        \n\n\n\
        \n\n\n\
        element type \nindex type \nnumber of elements \n\
        \ntype \nbit offset \n\
        \ntype \nbit offset \n\
        \nvalue \n\n\
        \n\n\n\
        \n\n\n\
        \n\n\n\
        \n\n\n\
        \n\n\n\
        \n\n\n\
        \ntype \n\n\
        linkage \n\n\n\
        type \noffset \nsize \n\
        \n\n\n\
        component \n\n\n\
        \n\n\n\
        \nlow \nhigh \n";
    if ENUM64 < kind {
        out.put_number(w);
        return;
    }
    if 2 < which {
        out.put_number(w);
        return;
    }
    out.put_with(line(labels, 3 * kind + which), w as u64);
}

// "INT: bits 0 to 7 width, 16 to 23 offset, 24 to 27 encoding, the others 0".
fn put_int_word(out: &mut Out, w: u32) {
    out.put_with(b"encoding ", (w / 16777216 % 16) as u64);
    out.put_with(b", offset ", (w / 65536 % 256) as u64);
    out.put_with(b", width ", (w % 256) as u64);
    if w / 256 % 256 == 0 && w < 268435456 {
        return;
    }
    out.put(b", spare bits set");
}

// "With kind_flag 1 the top 8 bits of the offset word are the field width w, the low 24 the bit offset".
fn put_field_word(out: &mut Out, w: u32) {
    out.put_with(b"field width ", (w / 16777216) as u64);
    out.put_with(b", bit offset ", (w % 16777216) as u64);
}

// The offset word of a member that has a field width.
fn is_field(info: u32, which: u32) -> bool {
    match kind_of(info) {
        STRUCT | UNION => flag_of(info) == 1 && which == 2,
        _ => false,
    }
}

// A word that is no name; in its parts where it has several.
fn put_plain(out: &mut Out, info: u32, which: u32, w: u32) {
    let kind = kind_of(info);
    if kind == INT {
        put_int_word(out, w);
        return;
    }
    if is_field(info, which) {
        put_field_word(out, w);
        return;
    }
    put_labelled(out, kind, which, w);
}

// What a word of a tail is.
pub(crate) fn put_role(
    out: &mut Out,
    blob: &[u8],
    index: &[u32],
    look: Look,
    info: u32,
    i: u32,
    w: u32,
) {
    let kind = kind_of(info);
    let spot = spot_of(kind, i);
    put_entry_number(out, kind, spot.entry);
    if is_name(spot.role) {
        put_offset(out, blob, NameOff(w));
        return;
    }
    put_plain(out, info, spot.which, w);
    if is_reference(spot.role) {
        put_referent(out, blob, index, look, w);
        return;
    }
}
