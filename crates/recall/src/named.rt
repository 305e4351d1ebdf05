// A prototype that names its parameters, judged once for all FUNCs that have it.
ghost use Rattle.std.specs.Prelude.{◌≡◌};
ghost use Rattle.paper.specs.rules.Layout.{all_named};
ghost use Rattle.paper.specs.rules.Tails.{parameters_of};
ghost use Rattle.paper.specs.terms.Reading.{record_in};

use paper::{Order, Place};
use rows::tail_words;

// Every parameter but a last 0/0 has a name. The words of the tail are counted, so that nothing is asked of its kind.
pub fn all_named(order: Order, bytes: &[u8]) -> bool
    ensures { result ≡ all_named (parameters_of (record_in order bytes.now)) }
{
    let n = tail_words(words::read(order, bytes, Place(4))) / 2;
    for i in 0..n {
        let p = 12 + 8 * i;
        if words::read(order, bytes, Place(p)) == 0 {
            if i + 1 < n {
                return false;
            }
            return words::read(order, bytes, Place(p + 4)) == 0;
        }
    }
    true
}
