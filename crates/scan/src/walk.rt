// Phase 2, reports 6 to 8: the records of the type section are walked and counted.
ghost use Rattle.std.specs.Prelude.{◌≡◌, ◌≤◌};
ghost use Rattle.scan.specs.Phase2.{WalkBegins, walk_finds, walked_as_paper, behind_of};

use paper::{Place, Report, TYPE_LIMIT, TypeNo};
use rows::{is_known, kind_of, tail_words};

// Why no record stands at a place: it is cut short, or its kind is unknown.
#[derive(Clone, Copy)]
pub(crate) enum Torn {
    Cut,
    Unknown,
}

// What stands behind a record, from its place in a section that ends at `end`. Differences are taken, since a sum could pass 32 bits.
fn behind_of(b: &[u8], at: Place, end: Place) -> Result<Place, Torn>
    requires { at.0 ≤ end.0 }
    ensures { result ≡ behind_of b.now at.0 end.0 }
{
    let room = end.0 - at.0;
    if room < 12 {
        return Err(Torn::Cut);
    }
    let info = words::blob_word(b, Place(at.0 + 4));
    if !is_known(kind_of(info)) {
        return Err(Torn::Unknown);
    }
    let tail = 4 * tail_words(info);
    if room - 12 < tail {
        return Err(Torn::Cut);
    }
    Ok(Place(at.0 + 12 + tail))
}

// The walk of a type section of `len` bytes behind so many types, whose numbers go on. 8 is tested before anything is read of the record.
pub(crate) fn walk(b: &[u8], first: u32, len: u32) -> Result<u32, Report>
    requires { WalkBegins b.now first len }
    ensures { walked_as_paper result ≡ walk_finds first b.now }
{
    let end = 24 + len;
    let mut at: u32 = 24;
    let mut count = first;
    // A while: each record says where the next begins, so there is no count to go over.
    while at < end {
        if count == TYPE_LIMIT {
            return Err(Report::ManyTypes(Place(at)));
        }
        count += 1;
        match behind_of(b, Place(at), Place(end)) {
            Ok(next) => at = next.0,
            Err(Torn::Cut) => return Err(Report::RecordCut(TypeNo(count), Place(at))),
            Err(Torn::Unknown) => return Err(Report::UnknownKind(TypeNo(count), Place(at))),
        }
    }
    Ok(count)
}
