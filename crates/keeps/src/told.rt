// What is said of a list or a table that is not saved.
use answers::Numbers;
use files::{Status, end};
use lines::{Out, STDOUT_FILENO};
use lists::Fault;
use texts::line;

// No list of a table within the limits is longer: 262,120 bytes in at most 16,384 records and the strings, and three bytes for each field, of
// which a body has one more for each 65,535 bytes.
pub(crate) const LIST_LIMIT: usize = 311284;

fn put_number(out: &mut Out, file: &[u8], why: u32) {
    let whys = b"report 50: a field of the list has a tag that no list has\n\
        report 51: the list ends inside a field, or where another is due\n\
        report 52: a field of the list is out of its place, or holds no whole record of its kind\n\
        report 53: the output or the lent bytes are too short\n\
        report 54: the list's table is refused\n";
    out.put_file(file);
    out.put(b": refused, ");
    out.put(line(whys, why));
}

fn told(file: &[u8], why: u32) -> Status {
    let mut out = Out::to(STDOUT_FILENO);
    put_number(&mut out, file, why);
    out.put(b"\n");
    end(&mut out, Status::Refused)
}

// 50 to 52, the fault of the first field that has one.
pub(crate) fn unread(file: &[u8], f: Fault) -> Status {
    match f {
        Fault::UnknownTag => told(file, 0),
        Fault::CutShort => told(file, 1),
        Fault::OutOfPlace => told(file, 2),
    }
}

// Slices of full size are too short only for a table over the byte limit.
pub(crate) fn short(file: &[u8]) -> Status {
    let mut out = Out::to(STDOUT_FILENO);
    put_number(&mut out, file, 3);
    out.put(b": a table has 262144 bytes at most\n");
    end(&mut out, Status::Refused)
}

// "LIST: refused, report 54: the list's table is refused, report 13, type 4"
pub(crate) fn table_refused(file: &[u8], inner: Numbers) -> Status {
    let mut out = Out::to(STDOUT_FILENO);
    put_number(&mut out, file, 4);
    out.put_with(b", report ", inner.number as u64);
    out.put_with(b", type ", inner.t as u64);
    out.put(b"\n");
    end(&mut out, Status::Refused)
}

// A file that is longer than any list of an accepted table.
pub(crate) fn long(file: &[u8]) -> Status {
    let mut out = Out::to(STDOUT_FILENO);
    out.put_file(file);
    out.put(b": refused: no list of an accepted table has over 311284 bytes\n");
    end(&mut out, Status::Refused)
}
