// The header of a blob that is made of another's records and strings.
ghost use Rattle.std.specs.Prelude.{◌≡◌};
ghost use Rattle.shift.specs.Made.{header_over};

use paper::{Order, Place};

// The other's header but for its last three words, the lengths of the sections. Nothing changes where there is no room for it.
pub fn put_header(order: Order, a: &[u8], types: u32, strings: u32, out: &mut [u8])
    ensures { out.new ≡ header_over order a.now types strings out.old }
{
    if a.len() < 12 {
        return;
    }
    if out.len() < 24 {
        return;
    }
    words::lay(out, 0, &a[..12]);
    words::write(order, out, Place(12), types);
    words::write(order, out, Place(16), types);
    words::write(order, out, Place(20), strings);
}
