// Op 6: a taken apart behind x types and y string bytes, with all four slices as that leaves them. The second output is as long as b.
ghost use Rattle.std.specs.Prelude.{◌≡◌, ◌&&◌, leb, length};
ghost use Rattle.replay.specs.Apart.{apart_seen};
ghost use Rattle.replay.specs.Run.{RanAs, ran_of};

use crate::cases::{BYTES, Head, PLACES, Seen};
use crate::ops::{Ran, Unrun, seen};
use answers::of_parted;
use paper::{NameOff, TypeNo};
use sums::{fill_bytes, fill_places, of_both, of_places};

fn apart_lent(
    h: Head,
    a: &[u8],
    index: &mut [u32],
    work: &mut [u32],
    first: &mut [u8],
    second: &mut [u8],
) -> Seen
    ensures { result ≡ apart_seen h.x h.y a.now (length index.old) (length work.old) (length first.old) (length second.old) }
{
    fill_places(index);
    fill_places(work);
    fill_bytes(first);
    fill_bytes(second);
    let at = TypeNo(h.x);
    let parted = split::split(a, at, NameOff(h.y), index, work, first, second);
    let output = of_both(first, second);
    seen(of_parted(parted), of_places(index), of_places(work), output)
}

fn apart_in(
    h: Head,
    a: &[u8],
    b: &[u8],
    index: &mut [u32],
    work: &mut [u32],
    first: &mut [u8],
    second: &mut [u8],
) -> Ran
    ensures { result ≡ ran_of (leb h.index (length index.old) && (leb h.work (length work.old) && (leb h.output (length first.old) && leb (length b.now) (length second.old)))) (apart_seen h.x h.y a.now h.index h.work h.output (length b.now)) }
{
    let places = h.index as usize;
    let works = h.work as usize;
    let bytes = h.output as usize;
    let others = b.len();
    if index.len() < places {
        return Err(Unrun::Large);
    }
    if work.len() < works {
        return Err(Unrun::Large);
    }
    if first.len() < bytes {
        return Err(Unrun::Large);
    }
    if second.len() < others {
        return Err(Unrun::Large);
    }
    let index = &mut index[..places];
    let work = &mut work[..works];
    let first = &mut first[..bytes];
    Ok(apart_lent(h, a, index, work, first, &mut second[..others]))
}

pub(crate) fn apart(h: Head, a: &[u8], b: &[u8]) -> Ran
    ensures { RanAs result (apart_seen h.x h.y a.now h.index h.work h.output (length b.now)) }
{
    let mut index = [0u32; PLACES];
    let mut work = [0u32; PLACES];
    let mut first = [0u8; BYTES];
    let mut second = [0u8; BYTES];
    apart_in(h, a, b, &mut index, &mut work, &mut first, &mut second)
}
