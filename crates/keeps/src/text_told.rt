// What is said of a text that cannot be read, or is not written as the tool writes it.
use answers::Numbers;
use files::{Status, end};
use lines::{Out, STDOUT_FILENO};
use list_text::{LABELS, Missed, Spot, Wanted, spot_of};
use reports::put_report;
use texts::{first_of, line};

// As many bytes of a line as are shown of what it should be.
const SHOWN: usize = 400;

// "FILE: refused, line 3"
fn put_line(out: &mut Out, file: &[u8], n: u32) {
    out.put_file(file);
    out.put_with(b": refused, line ", n as u64);
}

// A type's number in the line that stands for it: the first type's is the second line.
fn put_type(out: &mut Out, line_no: u32) {
    out.put(b"the number of this type is expected, ");
    out.put_number(line_no.saturating_sub(1));
}

fn put_label(out: &mut Out, label: u32) {
    out.put(line(&LABELS, label));
    out.put(b" is expected between blanks");
}

fn put_expected(out: &mut Out, what: Wanted, line_no: u32) {
    match what {
        Wanted::Strings => out.put(b"strings little-endian or strings big-endian is expected"),
        Wanted::String => out.put(
            b"a blank and a string is expected, bare or between quotes, or the end of the line",
        ),
        Wanted::Type => put_type(out, line_no),
        Wanted::Kind => out.put(b"a blank and the name of a kind is expected"),
        Wanted::Name => out.put(
            b"a name is expected that is one of the strings, its offset behind @, or - for none",
        ),
        Wanted::Number => out.put(b"a decimal number of 32 bits is expected"),
        Wanted::Count => out.put(b"a count is expected, 65535 at most"),
        Wanted::Shorter => out.put(b"a table is expected that has 262144 bytes at most"),
        Wanted::LineEnd => out.put(b"the end of the line is expected"),
        Wanted::Entry => out.put(b"a semicolon and another entry is expected, by the count before"),
        Wanted::First => out.put(b"the first string is expected, which is empty: \"\""),
        Wanted::Quoted => out.put(
            b"a printable byte, \\\\, \\\" or \\x and two digits is expected, and a quote at the end",
        ),
        Wanted::Label(label) => put_label(out, label),
    }
}

// "FILE: refused, line 3, byte 9: a decimal number of 32 bits is expected"
pub(crate) fn unread_text(file: &[u8], text: &[u8], m: Missed) -> Status {
    let mut out = Out::to(STDOUT_FILENO);
    let at = spot_of(text, m.at);
    put_line(&mut out, file, at.line);
    out.put_with(b", byte ", at.byte as u64);
    out.put(b": ");
    put_expected(&mut out, m.what, at.line);
    out.put(b"\n");
    end(&mut out, Status::Refused)
}

// A line that says what another would say, and how it stands in the text of the table: there is one of each.
pub(crate) fn other_text(file: &[u8], at: Spot, text: &[u8]) -> Status {
    let mut out = Out::to(STDOUT_FILENO);
    put_line(&mut out, file, at.line);
    out.put_with(b", byte ", at.byte as u64);
    out.put(b": the line is expected as\n");
    let wanted = line(text, at.line.saturating_sub(1));
    out.put(first_of(wanted, SHOWN));
    out.put(b"\n");
    end(&mut out, Status::Refused)
}

// A table that is refused: a type stands in the line behind its number, the strings in the first.
pub(crate) fn refused_text(file: &[u8], table: &[u8], told: Numbers) -> Status {
    let mut out = Out::to(STDOUT_FILENO);
    let at = std::num::wrapping_add_u32(told.t, 1);
    put_line(&mut out, file, at);
    out.put(b", ");
    put_report(&mut out, table, told);
    end(&mut out, Status::Refused)
}

// A text that is too long, or would be.
pub(crate) fn long_text(file: &[u8]) -> Status {
    let mut out = Out::to(STDOUT_FILENO);
    out.put_file(file);
    out.put(
        b": refused: a text has 524288 bytes at most; a list without --text has no such bound\n",
    );
    end(&mut out, Status::Refused)
}
