// What stands around records: a refusal, what is left out, and the lines of one record.
use entries::Listed;
use lines::Out;
use listing::NESTED;
use reading::put_members;
use texts::line;
use titles::{put_many, put_type};

// How many bytes a record may have: as many as are lent.
pub const RECORD_LIMIT: usize = 65536;

// What is read: a struct or union by its number, in a table of so many types, and how many bytes it has.
#[derive(Clone, Copy)]
pub struct Asked {
    pub n: u32,
    pub t: u32,
    pub size: usize,
}

// A refusal from 30 on, behind the name of what is refused.
pub fn put_refusal(out: &mut Out, number: u32) {
    let whys = b"report 30: the record is shorter than the type: \n\
        report 31: the type is neither a struct nor a union: \n\
        \n\
        \n\
        \n\
        report 35: the table is big-endian: \n";
    out.put(b": refused, ");
    if number < 30 {
        return;
    }
    out.put(line(whys, number - 30));
}

// A record that is shorter than its type, of so many bytes.
pub(crate) fn put_short(out: &mut Out, blob: &[u8], index: &[u32], a: Asked, len: usize) {
    put_refusal(out, 30);
    put_many(out, len as u64, b" byte, and ", b" bytes, and ");
    put_type(out, blob, index, a.t);
    out.put(b" has ");
    put_many(out, a.size as u64, b" byte", b" bytes");
    out.put(b"\n");
}

// Nothing is left out yet.
pub(crate) const STARTED: Listed = Listed {
    left: NESTED,
    is_cut: false,
};

// The lines of one record. What members hold is bounded for each record, so that a record behind many others is shown as the first is.
pub(crate) fn put_record(
    out: &mut Out,
    l: Listed,
    blob: &[u8],
    index: &[u32],
    a: Asked,
    s: &[u8],
) -> Listed {
    let first = Listed {
        left: NESTED,
        is_cut: l.is_cut,
    };
    put_members(out, first, blob, index, a.n, s, a.t)
}

// That lines were left out, if any were.
pub(crate) fn put_cut(out: &mut Out, l: Listed) {
    if !l.is_cut {
        return;
    }
    out.put(b"left out, where dots stand: what members hold far down, or in many lines\n");
}
