// A number of some bits with its top bit as sign, and the sixteen bytes of a longer span.
ghost use Rattle.std.specs.Prelude.{◌≡◌, ◌++◌, ◌+◌, ◌*◌, ◌^◌, ◌≤◌, ◌<◌, length};
ghost use Rattle.values.specs.Given.{bytes_in};
ghost use Rattle.values.specs.Promised.{bytes_from, filled_number, signed_number};
ghost use Rattle.values.specs.Value.{filled_up, span_bits};

use crate::numbers::{number_at, ones};
use paper::{Order, Place};
use words::write;

// Filled up to 64 bits with its top bit where it is signed, else with zeros.
fn filled(n: u64, bits: u64, signed: bool) -> u64
    requires { (1 ≤ bits) × (bits ≤ 64) × (n < 2 ^ bits) }
    ensures { result ≡ filled_number signed bits n }
{
    if !signed {
        return n;
    }
    if n >> (bits - 1) != 1 {
        return n;
    }
    let all = ones(bits);
    let k = all - n;
    u64::MAX - k
}

// The exact value: 2^bits less where the top bit is 1.
pub(crate) fn signed_of(n: u64, bits: u64) -> i64
    requires { (1 ≤ bits) × (bits ≤ 64) × (n < 2 ^ bits) }
    ensures { result ≡ signed_number bits n }
{
    let x = filled(n, bits, true);
    if x < 0x8000_0000_0000_0000 {
        return x as i64;
    }
    let k = u64::MAX - x;
    -(k as i64) - 1
}

// The bytes of two numbers, low byte first.
pub fn sixteen(a: u64, b: u64) -> [u8; 16]
    ensures { result ≡ bytes_from 8 0 a ++ bytes_from 8 0 b }
{
    let mut out = [0u8; 16];
    write(
        Order::LowFirst,
        &mut out,
        Place(0),
        (a % 0x1_0000_0000) as u32,
    );
    write(
        Order::LowFirst,
        &mut out,
        Place(4),
        (a / 0x1_0000_0000) as u32,
    );
    write(
        Order::LowFirst,
        &mut out,
        Place(8),
        (b % 0x1_0000_0000) as u32,
    );
    write(
        Order::LowFirst,
        &mut out,
        Place(12),
        (b / 0x1_0000_0000) as u32,
    );
    out
}

// A span of more than 64 bits: its low 64, and the others filled up.
pub(crate) fn long_bytes(s: &[u8], from: u64, bits: u64, signed: bool) -> [u8; 16]
    requires { (64 < bits) × (bits ≤ 128) × (from + bits ≤ 8 * length s.now) }
    ensures { result ≡ bytes_in 16 (filled_up signed (span_bits (record { from = from; size = bits }) s.now)) }
{
    let low = number_at(s, from, 64);
    let high = number_at(&s[8..], from, bits - 64);
    sixteen(low, filled(high, bits - 64, signed))
}
