// One look at an ARRAY.
ghost use Rattle.std.specs.Prelude.{◌≡◌, ◌⊎◌, ◌*◌, ◌%◌};
ghost use Rattle.glance.specs.Glance.{Looks, Stated, is_sized, whole};
ghost use Rattle.paper.specs.rules.KindNo.{ARRAY};
ghost use Rattle.paper.specs.rules.Table.{kind_of};
ghost use Rattle.paper.specs.terms.Reading.{record_in};

use crate::looks::{AWAITING, ENUMERATED, INTEGER, INTEGER_ALIAS, WHOLE, state_of, whole_bytes};
use paper::{Order, Place};

// A state of a plain type that has a size.
pub(crate) fn is_sized(s: u32) -> bool
    ensures { result ≡ is_sized (s % 16) }
{
    let class = s % 16;
    if class == WHOLE {
        return true;
    }
    if class == INTEGER {
        return true;
    }
    if class == INTEGER_ALIAS {
        return true;
    }
    class == ENUMERATED
}

// So many times so many whole bytes.
fn many_bytes(n: u32, z: u32) -> u32
    ensures { Stated (n * z) whole result }
{
    let all = (n as u64) * (z as u64);
    if 268435456 <= all {
        return 0;
    }
    let size = all as u32;
    whole_bytes(size)
}

// An ARRAY: its index is an INT itself.
pub(crate) fn array(order: Order, bytes: &[u8], work: &[u32]) -> u32
    requires { kind_of (record_in order bytes.now) ≡ ARRAY }
    ensures { (result ≡ 0) ⊎ Looks work.now (record_in order bytes.now) result }
{
    let n = words::read(order, bytes, Place(20));
    let index = state_of(work, words::read(order, bytes, Place(16)));
    if index % 16 != INTEGER {
        return AWAITING;
    }
    let element = state_of(work, words::read(order, bytes, Place(12)));
    if !is_sized(element) {
        return AWAITING;
    }
    many_bytes(n, element / 16)
}
