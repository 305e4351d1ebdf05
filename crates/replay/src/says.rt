// What is written: a line for each case that differs, for what stops a file, and for the counts.
use crate::cases::Seen;
use crate::tally::Tally;
// standard output
const STDOUT_FILENO: i32 = 1;

fn text(s: &[u8]) {
    io::write_all(STDOUT_FILENO, s);
}

fn number(n: u32) {
    io::print_decimal(STDOUT_FILENO, n as u64);
}

fn spaced(n: u32) {
    text(b" ");
    number(n);
}

fn numbers(s: Seen) {
    spaced(s.number);
    spaced(s.inner);
    spaced(s.t);
    spaced(s.p);
    spaced(s.index);
    spaced(s.work);
    spaced(s.output);
}

fn head(k: u32, op: u32) {
    text(b"case ");
    number(k);
    text(b" op ");
    number(op);
    text(b": ");
}

pub(crate) fn differs(k: u32, op: u32, must: Seen, seen: Seen) {
    head(k, op);
    text(b"expected");
    numbers(must);
    text(b", seen");
    numbers(seen);
    text(b"\n");
}

pub(crate) fn unknown(k: u32, op: u32) {
    head(k, op);
    text(b"no such op\n");
}

pub(crate) fn foreign() {
    text(b"not a vector file of version 1\n");
}

pub(crate) fn cut_opening() {
    text(b"cut short before the first case\n");
}

pub(crate) fn cut(k: u32) {
    text(b"cut short at case ");
    number(k);
    text(b"\n");
}

pub(crate) fn large(k: u32) {
    text(b"too large at case ");
    number(k);
    text(b"\n");
}

pub(crate) fn more() {
    text(b"more bytes after the last case\n");
}

pub(crate) fn last(t: Tally) {
    number(t.agreed);
    text(b" agreed, ");
    number(t.differed);
    text(b" differed\n");
}
