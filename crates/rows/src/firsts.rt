// The three words that every record begins with, of the bytes that begin with it, in a byte order; what is not there reads as 0.
ghost use Rattle.std.specs.Prelude.{◌≡◌};
ghost use Rattle.paper.specs.rules.Word.{word_at};

use paper::{NameOff, Order, Place};

pub fn name_of(order: Order, r: &[u8]) -> NameOff
    ensures { result.0 ≡ word_at order r.now 0 }
{
    NameOff(words::read(order, r, Place(0)))
}

pub fn info_of(order: Order, r: &[u8]) -> u32
    ensures { result ≡ word_at order r.now 4 }
{
    words::read(order, r, Place(4))
}

pub fn third_of(order: Order, r: &[u8]) -> u32
    ensures { result ≡ word_at order r.now 8 }
{
    words::read(order, r, Place(8))
}
