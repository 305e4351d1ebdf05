// The number of a span's bits in a record's bytes: eight bytes are read at once, shifted, and cut.
ghost use Rattle.std.specs.Prelude.{◌≡◌, ◌+◌, ◌*◌, ◌-◌, ◌^◌, ◌≤◌, ◌<◌, min, length, take};
ghost use Rattle.values.specs.Promised.{number_at, record_number};

use paper::{Order, Place};
use words::read;

// So many ones.
pub(crate) fn ones(bits: u64) -> u64
    requires { (1 ≤ bits) × (bits ≤ 64) }
    ensures { result ≡ 2 ^ bits - 1 }
{
    u64::MAX >> (64 - bits)
}

// The first eight bytes, as two words.
fn eight(s: &[u8]) -> u64
    requires { 8 ≤ length s.now }
    ensures { result ≡ record_number (take 8 s.now) }
{
    let low = read(Order::LowFirst, s, Place(0));
    let high = read(Order::LowFirst, s, Place(4));
    (low as u64) + (high as u64) * 0x1_0000_0000
}

// All of fewer than eight bytes, from the last on.
fn few(s: &[u8]) -> u64
    requires { length s.now < 8 }
    ensures { result ≡ record_number s.now }
{
    let mut n: u64 = 0;
    for c in s.iter().rev() {
        n = n * 256 + (*c as u64);
    }
    n
}

// The smaller of two places.
fn earlier(a: usize, b: usize) -> usize
    ensures { result ≡ min a b }
{
    if a < b { a } else { b }
}

// A span that begins in the first eight bytes; where it passes them it takes the low bits of the ninth.
fn in_window(s: &[u8], from: u64, bits: u64) -> u64
    requires { (8 ≤ length s.now) × (from < 64) × (1 ≤ bits) × (bits ≤ 64) × (from + bits ≤ 72) × (from + bits ≤ 8 * length s.now) }
    ensures { result ≡ number_at from bits s.now }
{
    let low = eight(s) >> from;
    let left = 64 - from;
    if bits <= left {
        return low & ones(bits);
    }
    low + (((s[8] as u64) & ones(bits - left)) << left)
}

// The bits of a span: the eight bytes from its first on are read, or the record's last eight.
pub(crate) fn number_at(s: &[u8], from: u64, bits: u64) -> u64
    requires { (1 ≤ bits) × (bits ≤ 64) × (from + bits ≤ 8 * length s.now) }
    ensures { result ≡ number_at from bits s.now }
{
    if s.len() < 8 {
        return (few(s) >> from) & ones(bits);
    }
    let place = earlier((from / 8) as usize, s.len() - 8);
    in_window(&s[place..], from - 8 * (place as u64), bits)
}
