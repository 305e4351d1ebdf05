// A table is read and checked, a type of it found, and records are read by it.
use crate::types::{by_name, is_record, unclear};
use answers::of_report;
use asks::{Ask, missing};
use bases::record_of;
use files::{READ_LIMIT, Status, end};
use lines::{Out, STDERR_FILENO, STDOUT_FILENO};
use logs::{Asked, RECORD_LIMIT, put_refusal, show_bytes, show_each, show_file};
use paper::{FULL_PLACES, Order};
use rows::third_of;
use tables::{lay_table, refused};
use texts::{first_of, parse};
use titles::put_type;

// Where records come from: bytes that are given, the start of a file, or a whole file.
#[derive(Clone, Copy)]
pub enum Source {
    Bytes,
    One,
    Each,
}

// What is asked: the name of the table's file, the word for a type of it, where records come from, and their bytes or the name of their file.
#[derive(Clone, Copy)]
struct Wish<'a> {
    file: &'a [u8],
    word: &'a [u8],
    source: Source,
    given: &'a [u8],
}

// A type that is neither a struct nor a union.
fn no_struct(file: &[u8], blob: &[u8], index: &[u32], t: u32) -> Status {
    let mut out = Out::to(STDOUT_FILENO);
    out.put_file(file);
    put_refusal(&mut out, 31);
    put_type(&mut out, blob, index, t);
    out.put(b"\n");
    end(&mut out, Status::Refused)
}

// A big-endian table.
fn high_first(file: &[u8]) -> Status {
    let mut out = Out::to(STDOUT_FILENO);
    out.put_file(file);
    put_refusal(&mut out, 35);
    out.put(b"its records are not read\n");
    end(&mut out, Status::Refused)
}

// A type of more bytes than are lent: no record of it is read.
fn too_long(file: &[u8], blob: &[u8], index: &[u32], t: u32, size: u32) -> Status {
    let mut out = Out::to(STDERR_FILENO);
    out.put(b"scrieve: ");
    out.put_file(file);
    out.put(b": ");
    put_type(&mut out, blob, index, t);
    out.put_with(b" has ", size as u64);
    out.put_with(b" bytes, and records are read of ", RECORD_LIMIT as u64);
    out.put(b" at most\n");
    out.flush();
    Status::Failed
}

// Records of a type, from where they come.
fn read_from(rt: &HostRuntime, w: Wish, blob: &[u8], index: &[u32], a: Asked) -> Status {
    let source = w.source;
    match source {
        Source::Bytes => show_bytes(b"--hex", blob, index, a, w.given),
        Source::One => show_file(rt, w.given, blob, index, a),
        Source::Each => show_each(rt, w.given, blob, index, a),
    }
}

// Records of a type of a table of so many.
fn read_type(rt: &HostRuntime, w: Wish, blob: &[u8], index: &[u32], n: u32, t: u32) -> Status {
    if !is_record(blob, index, t) {
        return no_struct(w.file, blob, index, t);
    }
    let size = third_of(words::order_of(blob), record_of(blob, index, t));
    if RECORD_LIMIT < size as usize {
        return too_long(w.file, blob, index, t, size);
    }
    let a = Asked {
        n,
        t,
        size: size as usize,
    };
    read_from(rt, w, blob, index, a)
}

// The type that the word asks for.
fn read_word(rt: &HostRuntime, w: Wish, blob: &[u8], index: &[u32], n: u32) -> Status {
    match parse(w.word) {
        Some(t) => {
            if n < t {
                return missing(w.file, Ask::One(t), n);
            }
            read_type(rt, w, blob, index, n, t)
        }
        None => match by_name(blob, index, n, w.word) {
            Ok(t) => read_type(rt, w, blob, index, n, t),
            Err(count) => unclear(w.file, blob, index, n, w.word, count),
        },
    }
}

// A table that is accepted, of so many types.
fn read_accepted(rt: &HostRuntime, w: Wish, blob: &[u8], index: &[u32], n: u32) -> Status {
    match words::order_of(blob) {
        Order::HighFirst => high_first(w.file),
        Order::LowFirst => read_word(rt, w, blob, index, n),
    }
}

// The table is checked before anything is read by it.
fn read_checked(
    rt: &HostRuntime,
    w: Wish,
    blob: &[u8],
    index: &mut [u32],
    work: &mut [u32],
) -> Status {
    match gate::check(blob, index, work) {
        Err(r) => refused(false, w.file, blob, index, of_report(r)),
        Ok(n) => read_accepted(rt, w, blob, index, n),
    }
}

// The table in the first bytes of what is lent. A function of its own: an array that was changed is not cut behind a match.
fn read_first(
    rt: &HostRuntime,
    w: Wish,
    blob: &[u8; READ_LIMIT],
    n: usize,
    index: &mut [u32; FULL_PLACES],
    work: &mut [u32; FULL_PLACES],
) -> Status {
    read_checked(rt, w, first_of(blob, n), index, work)
}

// The table in a file, and in its base's where it leans on one; the word that asks for a type of it; and where records come from.
pub fn read_records(
    rt: &HostRuntime,
    file: &[u8],
    base: &[u8],
    word: &[u8],
    source: Source,
    given: &[u8],
) -> Status {
    let mut blob = [0u8; READ_LIMIT];
    let mut index = [0u32; FULL_PLACES];
    let mut work = [0u32; FULL_PLACES];
    match lay_table(rt, false, file, base, &mut blob, &mut index, &mut work) {
        Err(status) => status,
        Ok(t) => {
            let w = Wish {
                file,
                word,
                source,
                given,
            };
            read_first(rt, w, &blob, t.len, &mut index, &mut work)
        }
    }
}
