// Bytes that are written as hexadecimal digits, two for each.
use logs::RECORD_LIMIT;

// Why digits are no bytes: one has no second, or a byte is no digit.
#[derive(Clone, Copy)]
pub enum Undecoded {
    Odd,
    Stray,
}

// What a digit stands for.
fn digit(c: u8) -> Option<u8> {
    match c {
        b'0'..=b'9' => Some(c - b'0'),
        b'A'..=b'F' => Some(c - b'A' + 10),
        b'a'..=b'f' => Some(c - b'a' + 10),
        _ => None,
    }
}

// A byte behind so many others, and how many there are then; one that does not fit is left out.
fn lay_byte(out: &mut [u8; RECORD_LIMIT], n: usize, high: u8, low: u8) -> usize {
    if RECORD_LIMIT <= n {
        return n;
    }
    out[n] = high % 16 * 16 + low % 16;
    n + 1
}

// How many bytes the digits say. Blanks between them say nothing.
pub fn decode(s: &[u8], out: &mut [u8; RECORD_LIMIT]) -> Result<usize, Undecoded> {
    let mut waiting = None;
    let mut n: usize = 0;
    for c in s {
        if *c != b' ' {
            let d = digit(*c).ok_or(Undecoded::Stray)?;
            match waiting {
                None => waiting = Some(d),
                Some(high) => {
                    n = lay_byte(out, n, high, d);
                    waiting = None;
                }
            }
        }
    }
    match waiting {
        None => Ok(n),
        Some(_) => Err(Undecoded::Odd),
    }
}
