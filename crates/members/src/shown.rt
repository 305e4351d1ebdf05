// What an index shows: how many types, and which have no place.
ghost use Rattle.std.specs.Prelude.{◌≡◌};
ghost use Rattle.members.specs.Looked.{placeless, places_in};

use paper::TypeNo;

// As many types as it has places.
pub(crate) fn places(index: &[u32]) -> u32
    ensures { result ≡ places_in index.now }
{
    let n = index.len();
    if n < 4294967296 {
        return n as u32;
    }
    4294967295
}

// A type that is not void and whose record stands nowhere.
pub(crate) fn placeless(index: &[u32], t: TypeNo) -> bool
    ensures { result ≡ placeless index.now t.0 }
{
    let k = t.0;
    if k == 0 {
        return false;
    }
    let i = k as usize;
    if index.len() <= i {
        return true;
    }
    index[i] < 24
}
