// One record: of bytes, or of a file, whose further bytes are counted.
use crate::said::{Asked, RECORD_LIMIT, STARTED, put_cut, put_record, put_short};
use entries::plus;
use files::{Opened, Status, close_input, end, open_input, read_input};
use lines::{Out, STDOUT_FILENO};
use listing::put_title;
use texts::first_of;
use titles::put_many;

// Bytes behind the record.
fn put_rest(out: &mut Out, n: u64) {
    if n == 0 {
        return;
    }
    out.put(b"left over: ");
    put_many(
        out,
        n,
        b" byte behind the record\n",
        b" bytes behind the record\n",
    );
}

// A record that is too short, under the name of what has it.
fn short(name: &[u8], blob: &[u8], index: &[u32], a: Asked, len: usize) -> Status {
    let mut out = Out::to(STDOUT_FILENO);
    out.put_file(name);
    put_short(&mut out, blob, index, a, len);
    end(&mut out, Status::Refused)
}

// The record that some bytes begin with; so many more were not kept.
fn show(blob: &[u8], index: &[u32], a: Asked, s: &[u8], more: u64) -> Status {
    let mut out = Out::to(STDOUT_FILENO);
    put_title(&mut out, blob, index, a.t);
    let l = put_record(&mut out, STARTED, blob, index, a, first_of(s, a.size));
    put_cut(&mut out, l);
    let rest = std::num::wrapping_sub_u64(s.len() as u64, a.size as u64);
    put_rest(&mut out, plus(rest, more));
    end(&mut out, Status::Done)
}

// Bytes, under the name of what has them.
pub fn show_bytes(name: &[u8], blob: &[u8], index: &[u32], a: Asked, s: &[u8]) -> Status {
    if s.len() < a.size {
        return short(name, blob, index, a, s.len());
    }
    show(blob, index, a, s, 0)
}

// How many bytes are left to read, if they can be read. No input has more turns than 64 bits count: a for with that
// bound, since nothing proves that an input ends.
fn count_rest(name: &[u8], from: &mut Opened, s: &mut [u8; RECORD_LIMIT]) -> Option<u64> {
    let mut n: u64 = 0;
    for _ in 0..u64::MAX {
        let more = read_input(name, from, s)?;
        if more == 0 {
            return Some(n);
        }
        n = plus(n, more as u64);
    }
    Some(n)
}

// What was read of a file that is open.
fn show_read(
    name: &[u8],
    from: &mut Opened,
    blob: &[u8],
    index: &[u32],
    a: Asked,
    s: &[u8],
) -> Status {
    if s.len() < a.size {
        return short(name, blob, index, a, s.len());
    }
    let mut more = [0u8; RECORD_LIMIT];
    match count_rest(name, from, &mut more) {
        Some(n) => show(blob, index, a, s, n),
        None => Status::Failed,
    }
}

// The first record of what is open.
fn show_first(name: &[u8], from: &mut Opened, blob: &[u8], index: &[u32], a: Asked) -> Status {
    let mut s = [0u8; RECORD_LIMIT];
    let Some(n) = read_input(name, from, &mut s) else {
        return Status::Failed;
    };
    show_read(name, from, blob, index, a, first_of(&s, n))
}

// The record that a file begins with.
pub fn show_file(rt: &HostRuntime, name: &[u8], blob: &[u8], index: &[u32], a: Asked) -> Status {
    match open_input(rt, name) {
        Some(mut from) => {
            let status = show_first(name, &mut from, blob, index, a);
            close_input(from);
            status
        }
        None => Status::Failed,
    }
}
