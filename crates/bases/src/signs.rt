// How a record's numbers are read: an INT's by its encoding, an enum's by its kind_flag and nothing else.
ghost use Rattle.std.specs.Prelude.{◌≡◌};
ghost use Rattle.paper.specs.terms.Reading.{record_in};
ghost use Rattle.bases.specs.Sign.{sign_of};

use kindrows::{ENUM, ENUM64, INT};
use paper::{Order, Place};
use rows::{flag_of, kind_of};

// 0 where a record has no numbers; else 1 unsigned, 2 signed, 3 char, 5 bool.
pub fn sign_of(order: Order, s: &[u8]) -> u32
    ensures { result ≡ sign_of (record_in order s.now) }
{
    let kind = kind_of(words::read(order, s, Place(4)));
    if kind == INT {
        let word = words::read(order, s, Place(12));
        return word / 16777216 % 16 + 1;
    }
    let flag = flag_of(words::read(order, s, Place(4)));
    if kind == ENUM {
        return flag + 1;
    }
    if kind == ENUM64 {
        return flag + 1;
    }
    0
}
