// What a report means, in words, the rule that is broken, and the bytes that it is about.
use crate::faults::{fault_of, nowhere};
use crate::marked::{put_besides, put_marked, put_unread};
use crate::records::types_of;
use answers::Numbers;
use fields::{put_header, put_hint, told_place};
use lines::Out;
use paper::FULL_PLACES;
use rulings::put_rule;
use texts::line;
use titles::put_record;
use words::rest_from;

fn put_meaning(out: &mut Out, number: u32) {
    let meanings = b"\n\
        the table has under 24 bytes or over 262144\n\
        the first four bytes are neither 9F EB 01 00 nor EB 9F 01 00 (magic, version 1, flags 0)\n\
        the header's length is not 24\n\
        the sections of types and strings do not fill the table one after the other\n\
        the strings are empty, or their first or last byte is not zero\n\
        the record does not fit the type section\n\
        there is no such kind\n\
        there are more than 16384 types\n\
        too few places were lent\n\
        a word of the record's head is not allowed\n\
        a name is not allowed\n\
        a word behind the record's head is not allowed\n\
        it refers to a type that is not there, or of a kind that is not allowed\n\
        what it holds, or what it points to, leads on without end\n\
        a rule of the layout is broken\n";
    out.put(line(meanings, number));
}

// What it means of a table behind a base: whose bytes count too, and which has the first zero byte of the strings.
fn put_meaning_behind(out: &mut Out, number: u32) {
    match number {
        1 => out.put(b"the table has under 24 bytes, or over 262144 with its base"),
        5 => out.put(b"the strings are not empty, and their last byte is not zero"),
        _ => put_meaning(out, number),
    }
}

// The kind and the name of a record whose head is there.
fn put_titled(out: &mut Out, blob: &[u8], r: &[u8]) {
    if r.len() < 12 {
        return;
    }
    out.put(b" (");
    put_record(out, blob, r);
    out.put(b")");
}

// The type that a report names, with its kind and name where it has them, and its place.
fn put_named(out: &mut Out, blob: &[u8], told: Numbers) {
    if told.t == 0 {
        return;
    }
    out.put_with(b", type ", told.t as u64);
    let r = rest_from(types_of(blob), told.p as usize);
    put_titled(out, blob, r);
    out.put_with(b", at byte ", told_place(out, told.p as usize) as u64);
}

// The rule of a report from 10 to 15, and the record that breaks it, by the index of so many types.
fn put_broken(out: &mut Out, blob: &[u8], index: &[u32], n: u32, told: Numbers) {
    let r = rest_from(types_of(blob), told.p as usize);
    let look = fault_of(blob, index, n, told.t, r, told.p, told.number);
    put_rule(out, told.number, rows::info_of(words::order_of(blob), r));
    put_marked(out, blob, index, told.p, look);
    put_besides(out, blob, index, r, look);
}

// A report from 10 to 15 leaves no index; phases 1 and 2, which the table has passed, make it again.
fn put_judged(out: &mut Out, blob: &[u8], told: Numbers) {
    let mut index = [0u32; FULL_PLACES];
    match scan::scan(blob, &mut index, FULL_PLACES) {
        Ok(n) => put_broken(out, blob, &index, n, told),
        Err(_) => {}
    }
}

// What a report is about: the header, the record. None for 9, which is about what was lent.
fn put_about(out: &mut Out, blob: &[u8], told: Numbers) {
    let index = [0u32; 1];
    let number = told.number;
    if number <= 5 {
        put_hint(out, blob, number);
        put_header(out, blob, number);
        return;
    }
    if number <= 7 {
        put_marked(out, blob, &index, told.p, nowhere(number, 0));
        return;
    }
    match number {
        8 => put_unread(out, blob, told.p),
        9 => {}
        _ => put_judged(out, blob, told),
    }
}

fn put_said(out: &mut Out, number: u32) {
    if out.strings == 0 {
        put_meaning(out, number);
        return;
    }
    put_meaning_behind(out, number);
}

// "report R: what it means, type T (KIND name), at byte P", and below it the rule and the bytes. Of a table behind a base from 6 on the
// blob is the table that holds both, and the report's place counts there.
pub fn put_report(out: &mut Out, blob: &[u8], told: Numbers) {
    out.put_with(b"report ", told.number as u64);
    out.put(b": ");
    put_said(out, told.number);
    put_named(out, blob, told);
    out.put(b"\n");
    put_about(out, blob, told);
}
