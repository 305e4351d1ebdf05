// Phase 1, reports 1 to 5: the header and the string section, of any bytes. A test for each report.
ghost use Rattle.std.specs.Prelude.{◌≡◌, get_or};
ghost use Rattle.header.specs.Behind.{HeaderBehind};
ghost use Rattle.header.specs.Header.{HeaderBy, HeaderOf, opens_otherwise, report_by};
ghost use Rattle.paper.specs.rules.Header.{opening_bad, header_length_bad, sections_bad, strings_bad};
ghost use Rattle.pairs.specs.Lean.{end_bad, length_bad_behind};

use paper::{BYTE_LIMIT, Order, Place, Report};

// How long the two sections behind a good header are.
#[derive(Clone, Copy)]
pub struct Sections {
    pub types: u32,
    pub strings: u32,
}

// Report 1: too short, or too long together with so many bytes before it. A difference is taken, since the sum could pass 64 bits.
fn length_bad(before: usize, b: &[u8]) -> bool
    ensures { result ≡ length_bad_behind before b.now }
{
    if b.len() < 24 {
        return true;
    }
    if BYTE_LIMIT < before {
        return true;
    }
    BYTE_LIMIT - before < b.len()
}

// The first four bytes are not the two of a magic, version 1 and flags 0.
fn opens_otherwise(b: &[u8], first: u8, second: u8) -> bool
    ensures { result ≡ opens_otherwise b.now first second }
{
    if b.len() < 4 {
        return true;
    }
    if b[0] != first {
        return true;
    }
    if b[1] != second {
        return true;
    }
    if b[2] != 1 {
        return true;
    }
    b[3] != 0
}

// Report 2: neither order's magic, version and flags.
fn opening_bad(b: &[u8]) -> bool
    ensures { result ≡ opening_bad b.now }
{
    match words::order_of(b) {
        Order::LowFirst => opens_otherwise(b, 0x9f, 0xeb),
        Order::HighFirst => opens_otherwise(b, 0xeb, 0x9f),
    }
}

// Report 3: the header's own length.
fn header_length_bad(b: &[u8]) -> bool
    ensures { result ≡ header_length_bad b.now }
{
    words::blob_word(b, Place(4)) != 24
}

// Report 4: the sections stand one behind the other and fill the blob. The sum is exact: 64 bits hold it.
fn sections_bad(b: &[u8]) -> bool
    ensures { result ≡ sections_bad b.now }
{
    let type_len = words::blob_word(b, Place(12));
    let str_len = words::blob_word(b, Place(20));
    if words::blob_word(b, Place(8)) != 0 {
        return true;
    }
    if type_len % 4 != 0 {
        return true;
    }
    if words::blob_word(b, Place(16)) != type_len {
        return true;
    }
    24 + type_len as usize + str_len as usize != b.len()
}

// The byte at a place, 0 outside.
fn byte(b: &[u8], at: usize) -> u8
    ensures { result ≡ get_or b.now at 0 }
{
    if at < b.len() {
        return b[at];
    }
    0
}

// Report 5 of a table behind a base: where there are strings, their last byte is zero.
fn end_bad(b: &[u8]) -> bool
    ensures { result ≡ end_bad b.now }
{
    let from = 24 + words::blob_word(b, Place(12)) as usize;
    let len = words::blob_word(b, Place(20)) as usize;
    if len == 0 {
        return false;
    }
    byte(b, from + (len - 1)) != 0
}

// Report 5 of a table that stands by itself: there are strings, and their first byte is zero too.
fn strings_bad(b: &[u8]) -> bool
    ensures { result ≡ strings_bad b.now }
{
    if words::blob_word(b, Place(20)) == 0 {
        return true;
    }
    let from = 24 + words::blob_word(b, Place(12)) as usize;
    if byte(b, from) != 0 {
        return true;
    }
    end_bad(b)
}

// Phase 1, told whether 1 and whether 5 is due, on which a base bears: the smallest report that is due, else the lengths of the sections.
fn read_by(b: &[u8], one: bool, five: bool) -> Result<Sections, Report>
    ensures { HeaderBy (report_by one five b.now) result b.now }
{
    if one {
        return Err(Report::Length);
    }
    if opening_bad(b) {
        return Err(Report::Opening);
    }
    if header_length_bad(b) {
        return Err(Report::HeaderLength);
    }
    if sections_bad(b) {
        return Err(Report::Sections);
    }
    if five {
        return Err(Report::Strings);
    }
    Ok(Sections {
        types: words::blob_word(b, Place(12)),
        strings: words::blob_word(b, Place(20)),
    })
}

// Phase 1 of a table that stands by itself.
pub fn read(b: &[u8]) -> Result<Sections, Report>
    ensures { HeaderOf result b.now }
{
    read_by(b, length_bad(0, b), strings_bad(b))
}

// Phase 1 of a table behind a base of so many bytes.
pub fn read_behind(before: usize, b: &[u8]) -> Result<Sections, Report>
    ensures { HeaderBehind result before b.now }
{
    read_by(b, length_bad(before, b), end_bad(b))
}
