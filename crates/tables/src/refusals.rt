// What is told of a table that is refused, by itself or with its base.
use crate::standing::{records_len, stand, strings_len};
use answers::Numbers;
use files::{READ_LIMIT, Status, end};
use lines::{Out, STDOUT_FILENO};
use listing::show_before;
use paper::Order;
use reports::put_report;
use texts::first_of;

fn put_refused(out: &mut Out, file: &[u8], blob: &[u8], told: Numbers) {
    out.put_file(file);
    out.put(b": refused, ");
    put_report(out, blob, told);
}

// Where all types are asked for, those before the one that the report names, unchecked; the first ones are a base's.
fn put_before(out: &mut Out, is_all: bool, blob: &[u8], index: &mut [u32], first: u32, t: u32) {
    if is_all {
        show_before(out, blob, index, first, t);
        return;
    }
}

// A table that is refused by itself.
pub fn refused(is_all: bool, file: &[u8], blob: &[u8], index: &mut [u32], told: Numbers) -> Status {
    let mut out = Out::to(STDOUT_FILENO);
    put_refused(&mut out, file, blob, told);
    put_before(&mut out, is_all, blob, index, 0, told.t);
    end(&mut out, Status::Refused)
}

// A table whose base is refused, which is told as if it were asked of by itself.
pub(crate) fn base_refused(file: &[u8], base_file: &[u8], base: &[u8], told: Numbers) -> Status {
    let mut out = Out::to(STDOUT_FILENO);
    out.put_file(file);
    out.put(
        b": refused, report 25: the base is refused\n    a base is a table that stands alone; it is named behind --base, and the table that leans on it before\n",
    );
    put_refused(&mut out, base_file, base, told);
    end(&mut out, Status::Refused)
}

fn put_orders(out: &mut Out, base: &[u8]) {
    match words::order_of(base) {
        Order::LowFirst => out.put(b": it is big-endian, the base little-endian\n"),
        Order::HighFirst => out.put(b": it is little-endian, the base big-endian\n"),
    }
}

// A table of the other byte order than its base.
pub(crate) fn turned(file: &[u8], base: &[u8]) -> Status {
    let mut out = Out::to(STDOUT_FILENO);
    out.put_file(file);
    out.put(b": refused, report 26: the table has another byte order than its base");
    put_orders(&mut out, base);
    end(&mut out, Status::Refused)
}

// A report from 6 on, told of the table that holds both: its place counts there.
fn in_both(told: Numbers, base: &[u8]) -> Numbers {
    Numbers {
        p: std::num::wrapping_add_u32(told.p, records_len(base)),
        ..told
    }
}

// That a table refused behind a base is accepted without it: the call is wrong rather than the table.
fn put_alone(out: &mut Out, is_alone: bool) {
    if is_alone {
        out.put(
            b"    by itself the table is accepted: it stands alone, and is asked of without --base\n",
        );
        return;
    }
}

// A table that is refused behind a base of so many types. Reports 1 to 5 are about its own header, all others about records that can
// refer to both.
pub(crate) fn refused_behind(
    is_all: bool,
    file: &[u8],
    base: &[u8],
    own: &[u8],
    first: u32,
    is_alone: bool,
    both: &mut [u8; READ_LIMIT],
    index: &mut [u32],
    told: Numbers,
) -> Status {
    let mut out = Out::to(STDOUT_FILENO);
    out.behind(records_len(base), strings_len(base));
    if told.number <= 5 {
        put_refused(&mut out, file, own, told);
        put_alone(&mut out, is_alone);
        return end(&mut out, Status::Refused);
    }
    let n = stand(base, own, both);
    let blob = first_of(both, n);
    put_refused(&mut out, file, blob, in_both(told, base));
    put_alone(&mut out, is_alone);
    put_before(&mut out, is_all, blob, index, first, told.t);
    end(&mut out, Status::Refused)
}
