// What bytes that are no table are instead, as far as their first words tell: a line behind the report.
use lines::Out;
use paper::{BYTE_LIMIT, Order, Place};
use texts::line;
use titles::put_many;
use words::rest_from;

// The parts of a .BTF.ext section begin with the length of their records, 8 bytes for functions and 16 for lines; its header is
// otherwise one of a table, or has two words more.
fn is_extension(blob: &[u8]) -> bool {
    let head = words::blob_word(blob, Place(4));
    let functions = words::blob_word(blob, Place(12));
    if 32 < head {
        return false;
    }
    if BYTE_LIMIT < functions as usize {
        return false;
    }
    if words::blob_word(blob, Place(16)) != functions {
        return false;
    }
    let lines = head + functions;
    words::blob_word(blob, Place(head)) == 8 && words::blob_word(blob, Place(lines)) == 16
}

// The strings are empty, or only their first byte is not zero: so are those of a table behind a base.
fn is_behind(blob: &[u8]) -> bool {
    let types = words::blob_word(blob, Place(12)) as usize;
    let s = rest_from(rest_from(blob, 24), types);
    s.len() == 0 || s[s.len() - 1] == 0
}

// Which line of the hints, if any.
fn hint_of(blob: &[u8], number: u32) -> Option<u32> {
    let w = words::read(Order::LowFirst, blob, Place(0));
    if number <= 2 && w == 1179403647 {
        return Some(0); // 7F 45 4C 46
    }
    if 3 <= number && is_extension(blob) {
        return Some(1);
    }
    if number == 5 && is_behind(blob) {
        return Some(2);
    }
    None
}

// The bytes that the header asks for, where there are others.
fn put_sum(out: &mut Out, blob: &[u8]) {
    let types = words::blob_word(blob, Place(12)) as u64;
    let strings = words::blob_word(blob, Place(20)) as u64;
    let asked = 24 + types + strings;
    let there = blob.len() as u64;
    if asked == there {
        return;
    }
    out.put_with(b"    24 bytes of header, ", types);
    out.put_with(b" of types and ", strings);
    out.put_with(b" of strings are ", asked);
    out.put(b": ");
    if there < asked {
        put_many(
            out,
            asked - there,
            b" byte is missing\n",
            b" bytes are missing\n",
        );
        return;
    }
    put_many(
        out,
        there - asked,
        b" byte too many\n",
        b" bytes too many\n",
    );
}

// The hint behind a report from 1 to 5, where there is one.
pub fn put_hint(out: &mut Out, blob: &[u8], number: u32) {
    let hints = b"\
        this is an ELF file: objcopy --dump-section .BTF=TABLE FILE takes its table out (llvm-objcopy for a BPF object)\n\
        this is a .BTF.ext section, and no table of types: that is the section .BTF\n\
        a table that leans on a base may have such strings: check, show, size, name and read take it with --base BASE behind them\n";
    if let Some(k) = hint_of(blob, number) {
        out.put(b"    ");
        out.put(line(hints, k));
        out.put(b"\n");
        return;
    }
    if number == 4 {
        put_sum(out, blob);
        return;
    }
}
