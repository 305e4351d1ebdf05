// As many records as a file holds, one behind the other. As many bytes as are whole records are read at a time, so that a file of any
// length is read.
use crate::said::{Asked, RECORD_LIMIT, STARTED, put_cut, put_record, put_short};
use entries::{Listed, plus};
use files::{Opened, Status, close_input, end, open_input, read_input};
use lines::{Out, STDERR_FILENO, STDOUT_FILENO};
use listing::put_title;
use texts::first_of;
use titles::{put_many, put_type};

// What was left out of the lines so far, how many records there were, and how many bytes they have.
#[derive(Clone, Copy)]
struct Told {
    l: Listed,
    count: u64,
    at: u64,
}

// What follows some bytes: more of them, none, or some that cannot be read. An enum of its own: what was shown before bytes that cannot be
// read is answered with them, so they are no error alone.
#[derive(Clone, Copy, PartialEq, Eq)]
enum Then {
    More,
    End,
    Unread,
}

// What is written behind some bytes, how many of them are no whole record, and what follows them.
#[derive(Clone, Copy)]
struct Turn {
    c: Told,
    left: usize,
    then: Then,
}

// A record's number, from 1, and its place.
fn put_number_at(out: &mut Out, count: u64, at: u64) {
    out.put_with(b"record ", plus(count, 1));
    out.put_with(b", at byte ", at);
}

// One record more, under its number.
fn put_next(out: &mut Out, c: Told, blob: &[u8], index: &[u32], a: Asked, s: &[u8]) -> Told {
    put_number_at(out, c.count, c.at);
    out.put(b"\n");
    let l = put_record(out, c.l, blob, index, a, s);
    Told {
        l,
        count: plus(c.count, 1),
        at: plus(c.at, a.size as u64),
    }
}

// Every whole record of some bytes, and how many of them are none.
fn put_all(
    out: &mut Out,
    c: Told,
    blob: &[u8],
    index: &[u32],
    a: Asked,
    s: &[u8],
) -> (Told, usize) {
    let size = a.size;
    if size == 0 {
        return (c, s.len());
    }
    let mut c = c;
    for record in s.chunks_exact(size) {
        c = put_next(out, c, blob, index, a, record);
    }
    (c, s.len() % size)
}

// How many bytes whole records fill of those that are lent.
fn whole_records(size: usize) -> usize {
    if size == 0 {
        return 0;
    }
    let over = RECORD_LIMIT % size;
    if RECORD_LIMIT < over {
        return 0;
    }
    RECORD_LIMIT - over
}

// The next bytes, so many at most.
fn read_part(name: &[u8], from: &mut Opened, s: &mut [u8], n: usize) -> Option<usize> {
    if s.len() < n {
        return read_input(name, from, s);
    }
    read_input(name, from, &mut s[..n])
}

// The records of the next bytes of what is open.
fn put_turn(
    out: &mut Out,
    c: Told,
    blob: &[u8],
    index: &[u32],
    a: Asked,
    name: &[u8],
    from: &mut Opened,
    s: &mut [u8; RECORD_LIMIT],
) -> Turn {
    let most = whole_records(a.size);
    let Some(n) = read_part(name, from, s, most) else {
        return Turn {
            c,
            left: 0,
            then: Then::Unread,
        };
    };
    let (c, left) = put_all(out, c, blob, index, a, first_of(s, n));
    let then = if n == most && out.is_whole {
        Then::More
    } else {
        Then::End
    };
    Turn { c, left, then }
}

// The records of what is open, to its end. No input has more turns than 64 bits count: a for with that bound, since nothing proves that an
// input ends.
fn put_turns(
    out: &mut Out,
    c: Told,
    blob: &[u8],
    index: &[u32],
    a: Asked,
    name: &[u8],
    from: &mut Opened,
    s: &mut [u8; RECORD_LIMIT],
) -> Turn {
    let mut turn = Turn {
        c,
        left: 0,
        then: Then::More,
    };
    for _ in 0..u64::MAX {
        turn = put_turn(out, turn.c, blob, index, a, name, from, s);
        if turn.then != Then::More {
            return turn;
        }
    }
    turn
}

// A rest that is no whole record, under the number that it would have.
fn put_left(out: &mut Out, c: Told, blob: &[u8], index: &[u32], a: Asked, left: usize) {
    if left == 0 {
        return;
    }
    put_number_at(out, c.count, c.at);
    put_short(out, blob, index, a, left);
}

// How the records end: with a rest or without, and how many there were.
fn ended(out: &mut Out, turn: Turn, blob: &[u8], index: &[u32], a: Asked) -> Status {
    let c = turn.c;
    put_left(out, c, blob, index, a, turn.left);
    put_cut(out, c.l);
    if turn.then == Then::Unread {
        return end(out, Status::Failed);
    }
    put_many(out, c.count, b" record\n", b" records\n");
    if turn.left != 0 {
        return end(out, Status::Refused);
    }
    end(out, Status::Done)
}

// The records of what is open, below the line of their type.
fn show_open(name: &[u8], from: &mut Opened, blob: &[u8], index: &[u32], a: Asked) -> Status {
    let mut out = Out::to(STDOUT_FILENO);
    let mut s = [0u8; RECORD_LIMIT];
    put_title(&mut out, blob, index, a.t);
    let c = Told {
        l: STARTED,
        count: 0,
        at: 0,
    };
    let turn = put_turns(&mut out, c, blob, index, a, name, from, &mut s);
    ended(&mut out, turn, blob, index, a)
}

// Records of no bytes have no end: a wrong call.
fn no_bytes(blob: &[u8], index: &[u32], a: Asked) -> Status {
    let mut out = Out::to(STDERR_FILENO);
    out.put(b"scrieve: --each: ");
    put_type(&mut out, blob, index, a.t);
    out.put(b" has 0 bytes\n");
    out.flush();
    Status::Failed
}

// Every record of a file.
pub fn show_each(rt: &HostRuntime, name: &[u8], blob: &[u8], index: &[u32], a: Asked) -> Status {
    if a.size == 0 {
        return no_bytes(blob, index, a);
    }
    match open_input(rt, name) {
        Some(mut from) => {
            let status = show_open(name, &mut from, blob, index, a);
            close_input(from);
            status
        }
        None => Status::Failed,
    }
}
