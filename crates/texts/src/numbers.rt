// A decimal number among the arguments: digits alone, and no more than 32 bits hold.
ghost use Rattle.std.specs.Prelude.{◌≡◌};
ghost use Rattle.texts.specs.Decimal.{number_of};

// The number that the bytes spell in decimal; none where they spell no such number.
pub fn parse(s: &[u8]) -> Option<u32>
    ensures { result ≡ number_of s.now }
{
    if s.len() == 0 {
        return None;
    }
    let mut value: u64 = 0;
    for c in s {
        let c = *c;
        if c < 48 {
            return None;
        }
        if 57 < c {
            return None;
        }
        value = value * 10 + ((c - 48) as u64);
        if 4294967295 < value {
            return None;
        }
    }
    Some(value as u32)
}
