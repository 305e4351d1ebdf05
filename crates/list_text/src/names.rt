// Where a name stands in the strings.
ghost use Rattle.std.specs.Prelude.{◌≤◌, length};

use crate::pens::alike;
use paper::BYTE_LIMIT;

// The longest text of a name in a type's line, that of any identifier; a longer one is told by its offset.
pub(crate) const NAME_ROOM: usize = 127;

// The end of the string that a place stands in.
pub(crate) fn string_end(strings: &[u8], from: usize) -> usize
    requires { from ≤ length strings.now }
    ensures { (from ≤ result) × (result ≤ length strings.now) }
{
    match strings[from..].iter().position(|c| *c == 0) {
        Some(n) => from + n,
        None => strings.len(),
    }
}

// The name at an offset; no bytes where there is none.
pub(crate) fn name_at(strings: &[u8], off: u32) -> &[u8] {
    let from = off as usize;
    if strings.len() < from {
        return &strings[..0];
    }
    let end = string_end(strings, from);
    &strings[from..end]
}

// Some strings begin with a name and a zero byte.
fn begins(strings: &[u8], name: &[u8]) -> bool {
    let n = alike(strings, name);
    if n < name.len() {
        return false;
    }
    if strings.len() <= n {
        return false;
    }
    strings[n] == 0
}

// The first offset behind the first byte at which a whole string is the name.
pub(crate) fn find(strings: &[u8], name: &[u8]) -> Option<u32> {
    if BYTE_LIMIT < strings.len() {
        return None;
    }
    for i in 1..strings.len() {
        if strings[i - 1] == 0 && begins(&strings[i..], name) {
            return Some(i as u32);
        }
    }
    None
}
