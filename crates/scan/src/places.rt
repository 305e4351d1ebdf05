// The places of the records, which an accepted blob leaves in the index.
ghost use Rattle.std.specs.Prelude.{◌≡◌, suc, length};
ghost use Rattle.paper.specs.rules.Header.{header_length};
ghost use Rattle.pairs.specs.Lean.{walk_behind};
ghost use Rattle.paper.specs.rules.Walk.{places_from, records_in};
ghost use Rattle.paper.specs.terms.Put.{put};
ghost use Rattle.scan.specs.Phase2.{WalkDone};

use paper::Place;
use rows::tail_words;

// The places of the records behind so many types, up to the n that a walk has counted. All other places are left as they are.
pub(crate) fn places(b: &[u8], first: u32, n: u32, index: &mut [u32])
    requires { WalkDone b.now first n (length index.old) }
    ensures { index.new ≡ put index.old (suc first) (places_from header_length (records_in (walk_behind first b.now))) }
{
    let mut at: u32 = 24;
    for k in first..n {
        index[k as usize + 1] = at;
        at += 12 + 4 * tail_words(words::blob_word(b, Place(at + 4)));
    }
}
