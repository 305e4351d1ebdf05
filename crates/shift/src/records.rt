// Records are raised, one pass over each.
ghost use Rattle.std.specs.Prelude.{◌≡◌, length};
ghost use Rattle.paper.specs.rules.Kind.{row_of};
ghost use Rattle.paper.specs.terms.Put.{put};
ghost use Rattle.paper.specs.terms.Reading.{record_in};
ghost use Rattle.shift.specs.Raising.{GroupOf, RecordAsk, RecordPut, raised_run, record_bytes};

use crate::groups::{Group, Shift, raise_entries, raise_group, raise_head};
use paper::Place;
use rows::{entry_role, entry_words, kind_of, once_role, once_words, tail_words, vlen_of};
use words::rest_from;

// The words of a kind's tail that stand once.
fn once_of(kind: u32) -> Group
    ensures { GroupOf result (row_of kind).once }
{
    Group {
        words: once_words(kind),
        first: once_role(kind, 0),
        second: once_role(kind, 1),
        third: once_role(kind, 2),
    }
}

// Those of an entry.
fn entry_of(kind: u32) -> Group
    ensures { GroupOf result (row_of kind).each }
{
    Group {
        words: entry_words(kind),
        first: entry_role(kind, 0),
        second: entry_role(kind, 1),
        third: entry_role(kind, 2),
    }
}

// The record that some bytes begin with is put into an output of just its length.
fn put_record(bytes: &[u8], by: Shift, out: &mut [u8])
    requires { RecordAsk by.order bytes.now (length out.old) }
    ensures { out.new ≡ put out.old 0 (record_bytes by (record_in by.order bytes.now)) }
{
    let order = by.order;
    let info = words::read(order, bytes, Place(4));
    let kind = kind_of(info);
    raise_head(bytes, kind, by, out);
    let once = once_of(kind);
    let skip = 4 * once.words;
    raise_group(bytes, Place(12), once, by, out);
    let entry = entry_of(kind);
    let v = vlen_of(info);
    let rest = 12 + skip;
    raise_entries(bytes, Place(rest), entry, v, by, out);
}

// The same, into the front of an output. How many bytes the record has; 0, and nothing is put, where there is no room for it.
fn raise_record(bytes: &[u8], by: Shift, out: &mut [u8]) -> u32
    ensures { RecordPut by bytes.now out.old out.new result }
{
    let order = by.order;
    let size = 12 + 4 * tail_words(words::read(order, bytes, Place(4)));
    let len = size as usize;
    if out.len() < len {
        return 0;
    }
    put_record(bytes, by, &mut out[..len]);
    size
}

// So many records that stand one behind the other, into the front of an output, as far as it has room for them.
pub fn raise_records(s: &[u8], n: u32, by: Shift, out: &mut [u8])
    ensures { out.new ≡ raised_run by n s.now out.old }
{
    let mut p = 0;
    for _ in 0..n {
        let size = raise_record(rest_from(s, p), by, &mut out[p..]);
        if size == 0 {
            return;
        }
        p += size as usize;
    }
}
