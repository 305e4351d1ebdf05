// A join that gives no table: which one is in the way, and why.
use crate::given::{Given, put_word, word_of};
use answers::{Numbers, of_report};
use files::{Status, end};
use lines::{Out, STDOUT_FILENO};
use paper::JoinError;
use reports::put_report;
use texts::line;

// "the third table", of those that are counted from 0.
fn put_which(out: &mut Out, k: u32) {
    let names = b"first\nsecond\nthird\nfourth\nfifth\nsixth\nseventh\neighth\n\
        ninth\ntenth\neleventh\ntwelfth\nthirteenth\nfourteenth\nfifteenth\nsixteenth\n";
    out.put(b"the ");
    out.put(line(names, k));
    out.put(b" table");
}

// The report of the join: every table but the first is the second of the join that it is refused in.
fn put_number(out: &mut Out, k: u32) {
    if k == 0 {
        out.put(b"join: refused, report 16: ");
        return;
    }
    out.put(b"join: refused, report 17: ");
}

// "join: refused, report 16: the first table is refused, NAME: report 5: .."
fn put_inner(rt: &HostRuntime, out: &mut Out, given: Given, k: u32, blob: &[u8], told: Numbers) {
    put_number(out, k);
    put_which(out, k);
    out.put(b" is refused, ");
    put_word(rt, out, word_of(given, k));
    out.put(b": ");
    put_report(out, blob, told);
}

// A table that is refused by itself is told with its own report.
fn refused(rt: &HostRuntime, given: Given, k: u32, blob: &[u8], told: Numbers) -> Status {
    let mut out = Out::to(STDOUT_FILENO);
    put_inner(rt, &mut out, given, k, blob, told);
    end(&mut out, Status::Refused)
}

// Of more than two tables, the first that does not go with those before it.
fn put_stray(rt: &HostRuntime, out: &mut Out, given: Given, k: u32) {
    if given.count <= 2 {
        return;
    }
    out.put(b"    ");
    put_word(rt, out, word_of(given, k));
    out.put(b", ");
    put_which(out, k);
    out.put(b", cannot be joined to what stands before it\n");
}

// Tables that do not go together: reports 24, 18, 19 and 20.
fn apart(rt: &HostRuntime, given: Given, k: u32, why: u32) -> Status {
    let whys =
        b"report 24: the tables have different byte orders: one is little-endian, the other big-endian\n\
        report 18: together there are more than 16384 types\n\
        report 19: the joined table would have over 262144 bytes\n\
        report 20: the output is shorter than the joined table\n";
    let mut out = Out::to(STDOUT_FILENO);
    out.put(b"join: refused, ");
    out.put(line(whys, why));
    out.put(b"\n");
    put_stray(rt, &mut out, given, k);
    end(&mut out, Status::Refused)
}

// A table, counted from 0, that could not be joined to those before it.
pub(crate) fn unjoined(
    rt: &HostRuntime,
    j: Result<u32, JoinError>,
    given: Given,
    k: u32,
    before: &[u8],
    blob: &[u8],
) -> Status {
    match j {
        Err(JoinError::FirstRefused(r)) => refused(rt, given, 0, before, of_report(r)),
        Err(JoinError::SecondRefused(r)) => refused(rt, given, k, blob, of_report(r)),
        Err(JoinError::OrdersDiffer) => apart(rt, given, k, 0),
        Err(JoinError::TooMany) => apart(rt, given, k, 1),
        Err(JoinError::TooLong) => apart(rt, given, k, 2),
        _ => apart(rt, given, k, 3),
    }
}
