// What a span inside the record says: its value, or its sixteen bytes.
ghost use Rattle.std.specs.Prelude.{◌≡◌, ◌+◌, ◌*◌, ◌≤◌, length};
ghost use Rattle.values.specs.Given.{given_bits};
ghost use Rattle.values.specs.Promised.{ValueOf};
ghost use Rattle.values.specs.Value.{span_bits};

use crate::Valued;
use crate::numbers::number_at;
use crate::signs::{long_bytes, signed_of};

// Up to 64 bits the exact value.
pub(crate) fn value_at(s: &[u8], from: u64, bits: u32, signed: bool) -> Valued
    requires { (1 ≤ bits) × (bits ≤ 128) × (from + bits ≤ 8 * length s.now) }
    ensures { ValueOf (given_bits (record { from = from; size = bits }) signed (span_bits (record { from = from; size = bits }) s.now)) result }
{
    let width = bits as u64;
    if 64 < bits {
        return Valued::Longer;
    }
    let n = number_at(s, from, width);
    if signed {
        return Valued::Signed(signed_of(n, width));
    }
    Valued::Unsigned(n)
}

// Above 64 bits all of them; else 0.
pub(crate) fn bytes_at(s: &[u8], from: u64, bits: u32, signed: bool) -> [u8; 16]
    requires { (bits ≤ 128) × (from + bits ≤ 8 * length s.now) }
    ensures { result ≡ (given_bits (record { from = from; size = bits }) signed (span_bits (record { from = from; size = bits }) s.now)).bytes }
{
    if bits <= 64 {
        return [0u8; 16];
    }
    long_bytes(s, from, bits as u64, signed)
}
