// One look at a FUNC_PROTO, or at a FUNC.
ghost use Rattle.std.specs.Prelude.{◌≡◌, true, ◌⊎◌};
ghost use Rattle.glance.specs.Glance.{Looks, parameter_seen};
ghost use Rattle.paper.specs.rules.Choice.{every};
ghost use Rattle.paper.specs.rules.KindNo.{FUNC, FUNC_PROTO};
ghost use Rattle.paper.specs.rules.Table.{kind_of};
ghost use Rattle.paper.specs.rules.Tails.{parameters_of};
ghost use Rattle.paper.specs.terms.Reading.{record_in};

use crate::looks::{AWAITING, NAMED, NOT_PLAIN, UNSIZED, behind_of, state_of};
use paper::{Order, Place};
use recall::all_named;
use rows::tail_words;

// The type of every parameter is void, or known to be plain.
fn parameters_seen(order: Order, bytes: &[u8], work: &[u32]) -> bool
    ensures { result ≡ true → every (parameter_seen work.now) (parameters_of (record_in order bytes.now)) ≡ true }
{
    let n = tail_words(words::read(order, bytes, Place(4))) / 2;
    for i in 0..n {
        let second = 12 + 8 * i + 4;
        if behind_of(work, words::read(order, bytes, Place(second))) == 0 {
            return false;
        }
    }
    true
}

// A FUNC_PROTO: a FUNC may have one that names its parameters.
pub(crate) fn prototype(order: Order, bytes: &[u8], work: &[u32]) -> u32
    requires { kind_of (record_in order bytes.now) ≡ FUNC_PROTO }
    ensures { (result ≡ 0) ⊎ Looks work.now (record_in order bytes.now) result }
{
    if behind_of(work, words::read(order, bytes, Place(8))) == 0 {
        return AWAITING;
    }
    if !parameters_seen(order, bytes, work) {
        return AWAITING;
    }
    if all_named(order, bytes) {
        return NAMED;
    }
    UNSIZED
}

// A FUNC.
pub(crate) fn function(order: Order, bytes: &[u8], work: &[u32]) -> u32
    requires { kind_of (record_in order bytes.now) ≡ FUNC }
    ensures { (result ≡ 0) ⊎ Looks work.now (record_in order bytes.now) result }
{
    if state_of(work, words::read(order, bytes, Place(8))) != NAMED {
        return 0;
    }
    NOT_PLAIN
}
