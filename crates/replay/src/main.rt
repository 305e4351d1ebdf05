// Runs the cases of a vector file on standard input: a line for each that differs, and a last line that counts.
// The committed input is made by `second vectors --large --edges --thin --seed 1 --cases 1000 --small --members 1000 --leaning 1000
// --apart 1000 --listed 1000`.
#![tactic(auto)]

mod cases; // what a case lends and passes, and what must be seen
mod says; // what is written
mod ops; // a function for each op
mod parting; // for the one that takes a table apart
mod keeping; // for a list read and a list written
mod leaning; // and for those over a base
mod given; // the places that bytes stand for
mod tally; // what becomes of a case, and the count

ghost use Rattle.std.specs.Prelude.{◌≡◌, ◌≤◌};
ghost use Rattle.replay.specs.Count.{ran};
ghost use Rattle.replay.specs.Run.{turn_of};

use cases::{BYTES, Head, Seen, Unopened};
use ops::{Ran, Unrun};
use tally::{Outcome, Stop, Tally};

// What was seen is compared with what must be, and a case that asked for too much is told. A line is written where there is still room for one.
fn judge(k: u32, is_room: bool, op: u32, must: Seen, ran: Ran) -> Result<Outcome, Stop>
    ensures { result ≡ turn_of must ran }
{
    match ran {
        Err(Unrun::Large) => Err(Stop::Large),
        Err(Unrun::Unknown) => {
            if is_room {
                says::unknown(k, op);
            }
            Ok(Outcome::Differed)
        }
        Ok(seen) => {
            if cases::same(must, seen) {
                return Ok(Outcome::Agreed);
            }
            if is_room {
                says::differs(k, op, must, seen);
            }
            Ok(Outcome::Differed)
        }
    }
}

// The case that the head begins: its bytes are read, it is run, and what must be seen is read.
fn run(k: u32, is_room: bool, h: Head, a: &mut [u8], b: &mut [u8]) -> Result<Outcome, Stop> {
    let a_len = h.a as usize;
    let b_len = h.b as usize;
    if a.len() < a_len {
        return Err(Stop::Large);
    }
    if b.len() < b_len {
        return Err(Stop::Large);
    }
    if !cases::read_whole(&mut a[..a_len]) {
        return Err(Stop::Cut);
    }
    if !cases::read_whole(&mut b[..b_len]) {
        return Err(Stop::Cut);
    }
    let ran = ops::run(h, &a[..a_len], &b[..b_len]);
    let must = cases::read_seen().ok_or(Stop::Cut)?;
    judge(k, is_room, h.op, must, ran)
}

// One case, from its first byte to its last.
fn turn(k: u32, is_room: bool, a: &mut [u8], b: &mut [u8]) -> Result<Outcome, Stop> {
    let h = cases::read_head().ok_or(Stop::Cut)?;
    run(k, is_room, h, a, b)
}

// So many cases, one after the other, up to the first that cannot be read.
fn replay(total: u32, a: &mut [u8], b: &mut [u8]) -> Tally
    ensures { ran result ≤ total }
{
    let mut tally = Tally::new();
    for done in 0..total {
        let k = done + 1;
        match turn(k, tally.differed < 20, a, b) {
            Ok(o) => tally = tally.counted(o),
            Err(Stop::Cut) => {
                says::cut(k);
                return tally.stopped();
            }
            Err(Stop::Large) => {
                says::large(k);
                return tally.stopped();
            }
        }
    }
    tally
}

// The bytes of a case are read into buffers of the largest size that it may have.
fn replay_all(total: u32) -> Tally {
    let mut a = [0u8; BYTES];
    let mut b = [0u8; BYTES];
    replay(total, &mut a, &mut b)
}

// The last line; a line before it where the file goes on behind its last case.
fn close(t: Tally) {
    if t.is_whole {
        if !cases::is_end() {
            says::more();
        }
    }
    says::last(t);
}

fn main() {
    match cases::read_opening() {
        Ok(n) => close(replay_all(n)),
        Err(Unopened::Foreign) => {
            says::foreign();
            close(Tally::new().stopped());
        }
        Err(Unopened::Cut) => {
            says::cut_opening();
            close(Tally::new().stopped());
        }
    }
}
