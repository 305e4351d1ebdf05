// The ops over a base: a is the base, b the table that leans on it. Both have one lifetime, since a name is a part of either.
ghost use Rattle.std.specs.Prelude.{◌≡◌, ◌&&◌, ◌/◌, leb, length};
ghost use Rattle.replay.specs.Over.{CutAt, lean_seen, name_over_seen, size_cut_seen, size_over_seen};
ghost use Rattle.replay.specs.Run.{RanAs, ran_of};
ghost use Rattle.sums.specs.Sum.{lent_bytes};

use crate::cases::{GIVEN, Head, PLACES, Seen};
use crate::given::places;
use crate::ops::{Ran, Unrun, plain, seen};
use answers::{of_leaned, of_sized};
use paper::{NameOff, TypeNo};
use sums::{bytes_lent, fill_places, of_bytes, of_places};

// Op 9: the check of b on a, with the index and the work slice as it leaves them.
fn check_lent<'a>(a: &'a [u8], b: &'a [u8], index: &mut [u32], work: &mut [u32], bytes: u32) -> Seen
    ensures { result ≡ lean_seen a.now b.now (length index.old) (length work.old) (lent_bytes bytes) }
{
    fill_places(index);
    fill_places(work);
    let answer = of_leaned(lean::check_leaning(a, b, index, work));
    seen(answer, of_places(index), of_places(work), bytes_lent(bytes))
}

fn check_in<'a>(h: Head, a: &'a [u8], b: &'a [u8], index: &mut [u32], work: &mut [u32]) -> Ran
    ensures { result ≡ ran_of (leb h.index (length index.old) && leb h.work (length work.old)) (lean_seen a.now b.now h.index h.work (lent_bytes h.output)) }
{
    let places = h.index as usize;
    let works = h.work as usize;
    if index.len() < places {
        return Err(Unrun::Large);
    }
    if work.len() < works {
        return Err(Unrun::Large);
    }
    let index = &mut index[..places];
    Ok(check_lent(a, b, index, &mut work[..works], h.output))
}

pub(crate) fn check_over<'a>(h: Head, a: &'a [u8], b: &'a [u8]) -> Ran
    ensures { RanAs result (lean_seen a.now b.now h.index h.work (lent_bytes h.output)) }
{
    let mut index = [0u32; PLACES];
    let mut work = [0u32; PLACES];
    check_in(h, a, b, &mut index, &mut work)
}

// Op 10: the size of type x, y the base's count. Nothing is lent; the field for the output's bytes counts the index's places, b's last.
fn from_of(len: usize, k: u32) -> usize
    ensures { CutAt result len k }
{
    let bytes = 4 * (k as usize);
    if len < bytes {
        return 0;
    }
    len - bytes
}

fn size_lent<'a>(h: Head, a: &'a [u8], own: &'a [u8], index: &[u8], given: &mut [u32]) -> Seen
    requires { length given.old ≡ length index.now / 4 }
    ensures { result ≡ size_over_seen h.x h.y a.now own.now index.now }
{
    places(index, given);
    let told = lean::size_leaning(a, h.y, own, given, TypeNo(h.x));
    seen(of_sized(told), 1, 1, 1)
}

fn size_in<'a>(h: Head, a: &'a [u8], own: &'a [u8], index: &[u8], given: &mut [u32]) -> Ran
    ensures { result ≡ ran_of (leb (length index.now / 4) (length given.old)) (size_over_seen h.x h.y a.now own.now index.now) }
{
    let n = index.len() / 4;
    if given.len() < n {
        return Err(Unrun::Large);
    }
    Ok(size_lent(h, a, own, index, &mut given[..n]))
}

pub(crate) fn size_over<'a>(h: Head, a: &'a [u8], b: &'a [u8]) -> Ran
    ensures { RanAs result (size_cut_seen h.x h.y a.now b.now h.output) }
{
    let mut given = [0u32; GIVEN];
    let from = from_of(b.len(), h.output);
    size_in(h, a, &b[..from], &b[from..], &mut given)
}

// Op 11: the name at offset x; the part stands for the output. Whether there is one is not told apart from an empty one.
pub(crate) fn name_over<'a>(h: Head, a: &'a [u8], b: &'a [u8]) -> Ran
    ensures { RanAs result (name_over_seen h.x a.now b.now) }
{
    let part = lean::name_leaning(a, b, NameOff(h.x));
    let p = part.len() as u32;
    Ok(seen(plain(0, p), 1, 1, of_bytes(part)))
}
