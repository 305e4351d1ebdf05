// What is asked of one table, and its answer.
#![tactic(auto)]

use answers::of_report;
use files::{READ_LIMIT, Status, end};
use lines::{Out, STDERR_FILENO, STDOUT_FILENO};
use listing::{show_all, show_named, show_one};
use paper::{FULL_PLACES, NameOff, Order, TypeNo};
use tables::{lay_table, refused};
use texts::first_of;
use titles::{put_many, put_size, put_type};

// Everything, one type, those of a name, a type's size, or the name at an offset.
#[derive(Clone, Copy)]
pub enum Ask {
    Check,
    All,
    One(u32),
    Named,
    Size(u32),
    Name(u32),
}

fn is_all(ask: Ask) -> bool {
    matches!(ask, Ask::All)
}

// The type or the offset that is asked of a table of so many types is there.
fn is_there(ask: Ask, blob: &[u8], n: u32) -> bool {
    match ask {
        Ask::Check => true,
        Ask::All => true,
        Ask::Named => true,
        Ask::One(t) => t <= n,
        Ask::Size(t) => t <= n,
        Ask::Name(at) => !header::nameless(blob, NameOff(at)),
    }
}

fn put_missing(out: &mut Out, ask: Ask, n: u32) {
    match ask {
        Ask::Name(at) => {
            out.put_with(b": offset ", at as u64);
            out.put(b" is past the strings\n")
        }
        _ => {
            out.put_with(b": there is no such type, the last is ", n as u64);
            out.put(b"\n")
        }
    }
}

// What is asked is not there: a wrong call.
pub fn missing(file: &[u8], ask: Ask, n: u32) -> Status {
    let mut out = Out::to(STDERR_FILENO);
    out.put(b"scrieve: ");
    out.put_file(file);
    put_missing(&mut out, ask, n);
    out.flush();
    Status::Failed
}

// No type has the name that is asked for: a wrong call.
fn unnamed(file: &[u8], name: &[u8]) -> Status {
    let mut out = Out::to(STDERR_FILENO);
    out.put(b"scrieve: ");
    out.put_file(file);
    out.put(b": no type has the name ");
    out.put_name(name);
    out.put(b"\n");
    out.flush();
    Status::Failed
}

// An accepted table: its file, its bytes and the places of its types, how many these are, and how many of them are a base's.
#[derive(Clone, Copy)]
struct Table<'a> {
    file: &'a [u8],
    blob: &'a [u8],
    index: &'a [u32],
    n: u32,
    base: Option<u32>,
}

// The types that have a name.
fn named(t: Table, name: &[u8]) -> Status {
    let mut out = Out::to(STDOUT_FILENO);
    if show_named(&mut out, t.blob, t.index, t.n, name) {
        return end(&mut out, Status::Done);
    }
    unnamed(t.file, name)
}

// The byte order of a table's words.
fn put_order(out: &mut Out, blob: &[u8]) {
    match words::order_of(blob) {
        Order::LowFirst => out.put(b"little-endian\n"),
        Order::HighFirst => out.put(b"big-endian\n"),
    }
}

// How many of the types are a base's.
fn put_lean(out: &mut Out, base: Option<u32>) {
    match base {
        Some(n) => out.put_with(b" with its base's ", n as u64),
        None => {}
    }
}

fn put_accepted(out: &mut Out, t: Table) {
    out.put_file(t.file);
    out.put(b": accepted, ");
    put_many(out, t.n as u64, b" type", b" types");
    put_lean(out, t.base);
    out.put(b", ");
    put_order(out, t.blob);
}

// Which types are a base's, and stand in its own table.
fn put_base(out: &mut Out, base: Option<u32>) {
    match base {
        None => {}
        Some(0) => out.put(b"of the base: no types\n"),
        Some(1) => out.put(b"of the base: type 1\n"),
        Some(n) => {
            out.put_with(b"of the base: types 1 to ", n as u64);
            out.put(b"\n")
        }
    }
}

// Every type of the table's own, below a line that tells the byte order.
fn put_table(out: &mut Out, t: Table) {
    out.put(b"byte order: ");
    put_order(out, t.blob);
    put_base(out, t.base);
    show_all(out, t.blob, t.index, t.base.unwrap_or(0), t.n);
}

fn put_sized(out: &mut Out, blob: &[u8], index: &[u32], t: u32) {
    put_type(out, blob, index, t);
    out.put(b": ");
    put_size(out, sizes::size(blob, index, TypeNo(t)));
    out.put(b"\n");
}

fn put_string(out: &mut Out, blob: &[u8], at: u32) {
    out.put_whole(header::name(blob, NameOff(at)));
    out.put(b"\n");
}

fn put_answer(out: &mut Out, ask: Ask, t: Table) {
    match ask {
        Ask::Check => put_accepted(out, t),
        Ask::All => put_table(out, t),
        Ask::One(k) => show_one(out, t.blob, t.index, k),
        Ask::Named => {}
        Ask::Size(k) => put_sized(out, t.blob, t.index, k),
        Ask::Name(at) => put_string(out, t.blob, at),
    }
}

fn answered(ask: Ask, t: Table, name: &[u8]) -> Status {
    if let Ask::Named = ask {
        return named(t, name);
    }
    if !is_there(ask, t.blob, t.n) {
        return missing(t.file, ask, t.n);
    }
    let mut out = Out::to(STDOUT_FILENO);
    put_answer(&mut out, ask, t);
    end(&mut out, Status::Done)
}

// A table is checked first, whatever is asked of it.
fn answer(
    ask: Ask,
    file: &[u8],
    blob: &[u8],
    index: &mut [u32],
    work: &mut [u32],
    name: &[u8],
    base: Option<u32>,
) -> Status {
    match gate::check(blob, index, work) {
        Err(r) => refused(is_all(ask), file, blob, index, of_report(r)),
        Ok(n) => answered(
            ask,
            Table {
                file,
                blob,
                index,
                n,
                base,
            },
            name,
        ),
    }
}

// The table in the first bytes of what is lent. A function of its own: an array that was changed is not cut behind a match.
fn answer_first(
    ask: Ask,
    file: &[u8],
    blob: &[u8; READ_LIMIT],
    n: usize,
    index: &mut [u32; FULL_PLACES],
    work: &mut [u32; FULL_PLACES],
    name: &[u8],
    base: Option<u32>,
) -> Status {
    answer(ask, file, first_of(blob, n), index, work, name, base)
}

// The file is read, and asked of in slices of full size; where it leans on a base, with that base's file.
pub fn ask_file(rt: &HostRuntime, ask: Ask, file: &[u8], base: &[u8], name: &[u8]) -> Status {
    let mut blob = [0u8; READ_LIMIT];
    let mut index = [0u32; FULL_PLACES];
    let mut work = [0u32; FULL_PLACES];
    match lay_table(
        rt,
        is_all(ask),
        file,
        base,
        &mut blob,
        &mut index,
        &mut work,
    ) {
        Err(status) => status,
        Ok(t) => answer_first(ask, file, &blob, t.len, &mut index, &mut work, name, t.base),
    }
}
