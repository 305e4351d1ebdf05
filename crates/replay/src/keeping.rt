// Ops 7 and 8: the list a read into a table, with a byte work slice as long as b, and the table a written out as its list; each with all its
// slices as that leaves them.
ghost use Rattle.std.specs.Prelude.{◌≡◌, ◌&&◌, leb, length};
ghost use Rattle.replay.specs.Kept.{read_seen, write_seen};
ghost use Rattle.replay.specs.Run.{RanAs, ran_of};

use crate::cases::{BYTES, Head, PLACES, Seen};
use crate::ops::{Ran, Unrun, seen};
use answers::{of_made, of_wrote};
use sums::{fill_bytes, fill_places, of_both, of_bytes, of_places};

fn read_lent(
    a: &[u8],
    index: &mut [u32],
    work: &mut [u32],
    bytes: &mut [u8],
    output: &mut [u8],
) -> Seen
    ensures { result ≡ read_seen a.now (length index.old) (length work.old) (length output.old) (length bytes.old) }
{
    fill_places(index);
    fill_places(work);
    fill_bytes(bytes);
    fill_bytes(output);
    let made = list::read(a, index, work, bytes, output);
    let sum = of_both(output, bytes);
    seen(of_made(made), of_places(index), of_places(work), sum)
}

fn read_in(
    h: Head,
    a: &[u8],
    b: &[u8],
    index: &mut [u32],
    work: &mut [u32],
    bytes: &mut [u8],
    output: &mut [u8],
) -> Ran
    ensures { result ≡ ran_of (leb h.index (length index.old) && (leb h.work (length work.old) && (leb h.output (length output.old) && leb (length b.now) (length bytes.old)))) (read_seen a.now h.index h.work h.output (length b.now)) }
{
    let places = h.index as usize;
    let works = h.work as usize;
    let room = h.output as usize;
    let lent = b.len();
    if index.len() < places {
        return Err(Unrun::Large);
    }
    if work.len() < works {
        return Err(Unrun::Large);
    }
    if output.len() < room {
        return Err(Unrun::Large);
    }
    if bytes.len() < lent {
        return Err(Unrun::Large);
    }
    let index = &mut index[..places];
    let work = &mut work[..works];
    let bytes = &mut bytes[..lent];
    Ok(read_lent(a, index, work, bytes, &mut output[..room]))
}

pub(crate) fn read_list(h: Head, a: &[u8], b: &[u8]) -> Ran
    ensures { RanAs result (read_seen a.now h.index h.work h.output (length b.now)) }
{
    let mut index = [0u32; PLACES];
    let mut work = [0u32; PLACES];
    let mut bytes = [0u8; BYTES];
    let mut output = [0u8; BYTES];
    read_in(h, a, b, &mut index, &mut work, &mut bytes, &mut output)
}

fn write_lent(a: &[u8], index: &mut [u32], work: &mut [u32], output: &mut [u8]) -> Seen
    ensures { result ≡ write_seen a.now (length index.old) (length work.old) (length output.old) }
{
    fill_places(index);
    fill_places(work);
    fill_bytes(output);
    let answer = of_wrote(list::write(a, index, work, output));
    seen(answer, of_places(index), of_places(work), of_bytes(output))
}

fn write_in(h: Head, a: &[u8], index: &mut [u32], work: &mut [u32], output: &mut [u8]) -> Ran
    ensures { result ≡ ran_of (leb h.index (length index.old) && (leb h.work (length work.old) && leb h.output (length output.old))) (write_seen a.now h.index h.work h.output) }
{
    let places = h.index as usize;
    let works = h.work as usize;
    let room = h.output as usize;
    if index.len() < places {
        return Err(Unrun::Large);
    }
    if work.len() < works {
        return Err(Unrun::Large);
    }
    if output.len() < room {
        return Err(Unrun::Large);
    }
    let index = &mut index[..places];
    let work = &mut work[..works];
    Ok(write_lent(a, index, work, &mut output[..room]))
}

pub(crate) fn write_list(h: Head, a: &[u8]) -> Ran
    ensures { RanAs result (write_seen a.now h.index h.work h.output) }
{
    let mut index = [0u32; PLACES];
    let mut work = [0u32; PLACES];
    let mut output = [0u8; BYTES];
    write_in(h, a, &mut index, &mut work, &mut output)
}
