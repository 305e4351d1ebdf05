// The files, the check, the answer.
use crate::pointed::{put_about, put_meaning};
use crate::shown::{count_records, put_records};
use answers::{Numbers, of_extended, of_report};
use ext::check_ext;
use exts::ExtError;
use files::{READ_LIMIT, Status, end, read_file};
use lines::{Out, STDOUT_FILENO};
use paper::FULL_PLACES;
use tables::{count, refused};
use texts::first_of;
use titles::put_many;

// "SECTION: accepted, 2 function records, 6 line records, 1 relocation"
fn put_accepted(out: &mut Out, file: &[u8], s: &[u8]) {
    let c = count_records(s);
    out.put_file(file);
    out.put(b": accepted, ");
    put_many(
        out,
        c.functions as u64,
        b" function record, ",
        b" function records, ",
    );
    put_many(out, c.lines as u64, b" line record, ", b" line records, ");
    put_many(
        out,
        c.relocations as u64,
        b" relocation record\n",
        b" relocation records\n",
    );
}

// An accepted section: how much it holds, or all of it.
fn tell_accepted(file: &[u8], blob: &[u8], index: &[u32], s: &[u8], is_shown: bool) -> Status {
    let mut out = Out::to(STDOUT_FILENO);
    if is_shown {
        put_records(&mut out, blob, index, s);
        return end(&mut out, Status::Done);
    }
    put_accepted(&mut out, file, s);
    end(&mut out, Status::Done)
}

// "SECTION: refused, report 46: a group ..."
fn put_refused(out: &mut Out, file: &[u8], number: u32) {
    out.put_file(file);
    out.put_with(b": refused, report ", number as u64);
    out.put(b": ");
    put_meaning(out, number);
}

// A section that is refused by itself, beside an accepted table of n types.
fn tell_refused(file: &[u8], blob: &[u8], index: &[u32], n: u32, s: &[u8], number: u32) -> Status {
    let mut out = Out::to(STDOUT_FILENO);
    put_refused(&mut out, file, number);
    put_about(&mut out, blob, index, n, s, number);
    end(&mut out, Status::Refused)
}

// A section beside a table that is refused, which is told as `check` tells it.
fn tell_table(file: &[u8], table: &[u8], blob: &[u8], index: &mut [u32], told: Numbers) -> Status {
    let mut out = Out::to(STDOUT_FILENO);
    put_refused(&mut out, file, 40);
    out.put(b"\n");
    out.flush();
    refused(false, table, blob, index, told)
}

fn ext_blobs(table: &[u8], blob: &[u8], file: &[u8], s: &[u8], is_shown: bool) -> Status {
    let mut index = [0u32; FULL_PLACES];
    let mut work = [0u32; FULL_PLACES];
    let r = check_ext(blob, s, &mut index, &mut work);
    match r {
        Ok(()) => tell_accepted(file, blob, &index, s, is_shown),
        Err(ExtError::TableRefused(inner)) => {
            tell_table(file, table, blob, &mut index, of_report(inner))
        }
        Err(ExtError::Refused(_)) => {
            let told = of_extended(r);
            let n = count(blob, &mut index);
            tell_refused(file, blob, &index, n, s, told.number)
        }
    }
}

// The table and the section in two files; every record in words where that is asked for.
pub fn ext_files(rt: &HostRuntime, table: &[u8], file: &[u8], is_shown: bool) -> Status {
    let mut blob = [0u8; READ_LIMIT];
    let mut s = [0u8; READ_LIMIT];
    let Some(n) = read_file(rt, table, &mut blob) else {
        return Status::Failed;
    };
    let Some(section_n) = read_file(rt, file, &mut s) else {
        return Status::Failed;
    };
    ext_blobs(
        table,
        first_of(&blob, n),
        file,
        first_of(&s, section_n),
        is_shown,
    )
}
