// Each op: the call, its answer in the paper's numbers, and the sums of what was lent to it. An op has the arrays that it lends from, cuts them to
// what a case lends, and makes the call; of what a call is lent and does not touch only the sum is made.
ghost use Rattle.std.specs.Prelude.{◌≡◌, ◌&&◌, ◌/◌, ◌<◌, leb, length};
ghost use Rattle.answers.specs.Numbers.{as_paper};
ghost use Rattle.paper.specs.declared.Order.TheVariants.{LowFirst};
ghost use Rattle.paper.specs.rules.Word.{words};
ghost use Rattle.replay.specs.Case.{check_seen, join_seen, member_seen, name_seen, plainly, seen_sums, size_seen};
ghost use Rattle.replay.specs.Run.{RanAs, RunOf, ran_of};
ghost use Rattle.sums.specs.Sum.{lent_bytes};

use crate::cases::{BYTES, GIVEN, Head, PLACES, Seen};
use crate::given::places;
use crate::keeping::{read_list, write_list};
use crate::leaning::{check_over, name_over, size_over};
use crate::parting::apart;
use answers::{Numbers, of_checked, of_joined, of_sized};
use handed::{numbers_of, sixteen_of};
use paper::{NameOff, TypeNo};
use sums::{bytes_lent, fill_bytes, fill_places, of_bytes, of_places, places_lent};

// Why a case is not run: there is no such op, or it asks for more than the op's arrays hold.
#[derive(Clone, Copy)]
pub(crate) enum Unrun {
    Unknown,
    Large,
}

// What running a case gives: what was seen.
pub(crate) type Ran = Result<Seen, Unrun>;

// An answer with the sums of what was lent.
pub(crate) fn seen(r: Numbers, index: u32, work: u32, output: u32) -> Seen
    ensures { result ≡ seen_sums (as_paper r) index work output }
{
    Seen {
        number: r.number,
        inner: r.inner,
        t: r.t,
        p: r.p,
        index,
        work,
        output,
    }
}

// An answer with no report inside and no type.
pub(crate) fn plain(number: u32, p: u32) -> Numbers
    ensures { as_paper result ≡ plainly number p }
{
    Numbers {
        number,
        inner: 0,
        t: 0,
        p,
    }
}

// Op 1: the check of a, with the index and the work slice as it leaves them.
fn check_lent(a: &[u8], index: &mut [u32], work: &mut [u32], bytes: u32) -> Seen
    ensures { result ≡ check_seen a.now (length index.old) (length work.old) (lent_bytes bytes) }
{
    fill_places(index);
    fill_places(work);
    let answer = of_checked(gate::check(a, index, work));
    seen(answer, of_places(index), of_places(work), bytes_lent(bytes))
}

fn check_in(h: Head, a: &[u8], index: &mut [u32], work: &mut [u32]) -> Ran
    ensures { result ≡ ran_of (leb h.index (length index.old) && leb h.work (length work.old)) (check_seen a.now h.index h.work (lent_bytes h.output)) }
{
    let places = h.index as usize;
    let works = h.work as usize;
    if index.len() < places {
        return Err(Unrun::Large);
    }
    if work.len() < works {
        return Err(Unrun::Large);
    }
    let index = &mut index[..places];
    Ok(check_lent(a, index, &mut work[..works], h.output))
}

fn check(h: Head, a: &[u8]) -> Ran
    ensures { RanAs result (check_seen a.now h.index h.work (lent_bytes h.output)) }
{
    let mut index = [0u32; PLACES];
    let mut work = [0u32; PLACES];
    check_in(h, a, &mut index, &mut work)
}

// Op 2: the size of type x in a; b is the index.
fn size_lent(h: Head, a: &[u8], b: &[u8], given: &mut [u32]) -> Seen
    requires { length given.old ≡ length b.now / 4 }
    ensures { result ≡ size_seen h.x a.now (words LowFirst b.now) h.index h.work h.output }
{
    places(b, given);
    let answer = of_sized(sizes::size(a, given, TypeNo(h.x)));
    seen(
        answer,
        places_lent(h.index),
        places_lent(h.work),
        bytes_lent(h.output),
    )
}

fn size_in(h: Head, a: &[u8], b: &[u8], given: &mut [u32]) -> Ran
    ensures { result ≡ ran_of (leb (length b.now / 4) (length given.old)) (size_seen h.x a.now (words LowFirst b.now) h.index h.work h.output) }
{
    let n = b.len() / 4;
    if given.len() < n {
        return Err(Unrun::Large);
    }
    Ok(size_lent(h, a, b, &mut given[..n]))
}

fn size(h: Head, a: &[u8], b: &[u8]) -> Ran
    ensures { RanAs result (size_seen h.x a.now (words LowFirst b.now) h.index h.work h.output) }
{
    let mut given = [0u32; GIVEN];
    size_in(h, a, b, &mut given)
}

// Op 3: the name in a at offset x; the part stands for the output.
fn name_lent(h: Head, a: &[u8]) -> Seen
    requires { length a.now < 4294967296 }
    ensures { result ≡ name_seen h.x a.now h.index h.work }
{
    let at = NameOff(h.x);
    let part = header::name(a, at);
    let p = part.len() as u32;
    let index = places_lent(h.index);
    let work = places_lent(h.work);
    let output = of_bytes(part);
    if header::nameless(a, at) {
        return seen(plain(1, p), index, work, output);
    }
    seen(plain(0, p), index, work, output)
}

fn name(h: Head, a: &[u8]) -> Ran
    ensures { result ≡ ran_of (leb (length a.now) 4294967295) (name_seen h.x a.now h.index h.work) }
{
    if 4294967295 < a.len() {
        return Err(Unrun::Large);
    }
    Ok(name_lent(h, a))
}

// Op 4: a and b joined into the output, with all three slices as the join leaves them.
fn join_lent(a: &[u8], b: &[u8], index: &mut [u32], work: &mut [u32], output: &mut [u8]) -> Seen
    ensures { result ≡ join_seen a.now b.now (length index.old) (length work.old) (lent_bytes (length output.old)) }
{
    fill_places(index);
    fill_places(work);
    fill_bytes(output);
    let answer = of_joined(join::join(a, b, index, work, output));
    seen(answer, of_places(index), of_places(work), of_bytes(output))
}

fn join_in(
    h: Head,
    a: &[u8],
    b: &[u8],
    index: &mut [u32],
    work: &mut [u32],
    output: &mut [u8],
) -> Ran
    ensures { result ≡ ran_of (leb h.index (length index.old) && (leb h.work (length work.old) && leb h.output (length output.old))) (join_seen a.now b.now h.index h.work (lent_bytes h.output)) }
{
    let places = h.index as usize;
    let works = h.work as usize;
    let bytes = h.output as usize;
    if index.len() < places {
        return Err(Unrun::Large);
    }
    if work.len() < works {
        return Err(Unrun::Large);
    }
    if output.len() < bytes {
        return Err(Unrun::Large);
    }
    let index = &mut index[..places];
    let work = &mut work[..works];
    Ok(join_lent(a, b, index, work, &mut output[..bytes]))
}

fn join(h: Head, a: &[u8], b: &[u8]) -> Ran
    ensures { RanAs result (join_seen a.now b.now h.index h.work (lent_bytes h.output)) }
{
    let mut index = [0u32; PLACES];
    let mut work = [0u32; PLACES];
    let mut output = [0u8; BYTES];
    join_in(h, a, b, &mut index, &mut work, &mut output)
}

// Op 5: member y of type x, a the table, b the record; the sixteen bytes of the value stand for the output.
fn member_lent(h: Head, a: &[u8], b: &[u8], index: &mut [u32], work: &mut [u32]) -> Seen
    ensures { result ≡ member_seen h.x h.y a.now b.now (length index.old) (length work.old) }
{
    fill_places(index);
    fill_places(work);
    let told = record::member(a, index, work, TypeNo(h.x), h.y, b);
    let answer = numbers_of(told);
    let bytes = sixteen_of(told);
    seen(answer, of_places(index), of_places(work), of_bytes(&bytes))
}

fn member_in(h: Head, a: &[u8], b: &[u8], index: &mut [u32], work: &mut [u32]) -> Ran
    ensures { result ≡ ran_of (leb h.index (length index.old) && leb h.work (length work.old)) (member_seen h.x h.y a.now b.now h.index h.work) }
{
    let places = h.index as usize;
    let works = h.work as usize;
    if index.len() < places {
        return Err(Unrun::Large);
    }
    if work.len() < works {
        return Err(Unrun::Large);
    }
    let index = &mut index[..places];
    Ok(member_lent(h, a, b, index, &mut work[..works]))
}

fn member(h: Head, a: &[u8], b: &[u8]) -> Ran
    ensures { RanAs result (member_seen h.x h.y a.now b.now h.index h.work) }
{
    let mut index = [0u32; PLACES];
    let mut work = [0u32; PLACES];
    member_in(h, a, b, &mut index, &mut work)
}

// A case by its op.
pub(crate) fn run<'a>(h: Head, a: &'a [u8], b: &'a [u8]) -> Ran
    ensures { RunOf result h a.now b.now }
{
    let op = h.op;
    match op {
        1 => check(h, a),
        2 => size(h, a, b),
        3 => name(h, a),
        4 => join(h, a, b),
        5 => member(h, a, b),
        6 => apart(h, a, b),
        7 => read_list(h, a, b),
        8 => write_list(h, a),
        9 => check_over(h, a, b),
        10 => size_over(h, a, b),
        11 => name_over(h, a, b),
        _ => Err(Unrun::Unknown),
    }
}
