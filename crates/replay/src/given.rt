// The places that bytes stand for: what a case hands in as an index.
ghost use Rattle.std.specs.Prelude.{◌≡◌, ◌/◌, length};
ghost use Rattle.paper.specs.declared.Order.TheVariants.{LowFirst};
ghost use Rattle.paper.specs.rules.Word.{words};

use paper::{Order, Place};

// Low byte first.
pub(crate) fn places(b: &[u8], s: &mut [u32])
    requires { length s.old ≡ length b.now / 4 }
    ensures { s.new ≡ words LowFirst b.now }
{
    for i in 0..s.len() {
        s[i] = words::read(Order::LowFirst, &b[4 * i..], Place(0));
    }
}
