// Identifiers and section names: a name is gone over once, and never past its 128th byte.
// A set of bytes is four words of a bit for each byte, so that one look-up answers for a byte, and no branch hangs on which it is.
#![tactic(auto)]

ghost use Rattle.std.specs.Prelude.{◌≡◌, ◌+◌, ◌≤◌, drop, length};
ghost use Rattle.paper.specs.rules.Name.{identifier_length, is_section_name, name_in};
ghost use Rattle.idents.specs.Spelling.{Begun, Lower, Passing, Past, Surely, among, identifier_byte, left_at, run_length, spelt_as_paper};

use paper::NameOff;

// Digits are 48 to 57, letters 65 to 90 and 97 to 122, the underscore is 95.
const WORD: [u64; 4] = [0x03ff_0000_0000_0000, 0x07ff_fffe_87ff_fffe, 0, 0];

// 33 to 126.
const PRINTED: [u64; 4] = [0xffff_fffe_0000_0000, 0x7fff_ffff_ffff_ffff, 0, 0];

// A byte is of a set, which is lent: a constant array is laid on the stack wherever it is named.
fn is_among(set: &[u64; 4], c: u8) -> bool
    ensures { result ≡ among set.now c }
{
    (set[(c / 64) as usize] >> (c % 64)) % 2 == 1
}

// A byte of an identifier, by comparing alone: a row of such tests has no branch and no look-up, so that the compiler can make them
// all at once.
fn is_word(c: u8) -> bool
    ensures { result ≡ identifier_byte c }
{
    let small = c | 32;
    ((97 <= small) & (small <= 122)) | ((48 <= c) & (c <= 57)) | (c == 95)
}

// Sixteen bytes from a place on are an identifier's.
fn sixteen(s: &[u8], from: usize) -> bool
    requires { from + 16 ≤ length s.now }
    ensures { Surely s.now from (from + 16) result }
{
    let mut all = true;
    for i in from..from + 16 {
        all = all & is_word(s[i]);
    }
    all
}

// How far an identifier's bytes go on, sixteen at a time, and not past a bound.
fn ahead(s: &[u8], from: usize, to: usize) -> usize
    requires { (from ≤ to) × (to ≤ length s.now) }
    ensures { Passing identifier_byte s.now from result × (result ≤ to) }
{
    let rows = (to - from) / 16;
    for k in 0..rows {
        let i = from + 16 * k;
        if !sixteen(s, i) {
            return i;
        }
    }
    from + 16 * rows
}

// How far the bytes of a set go on, and not past a bound.
fn past(s: &[u8], from: usize, to: usize, set: &[u64; 4]) -> usize
    requires { (from ≤ to) × (to ≤ length s.now) }
    ensures { Past (among set.now) s.now from to result }
{
    for i in from..to {
        if !is_among(set, s[i]) {
            return i;
        }
    }
    to
}

// The lower of two places.
fn lower(a: usize, b: usize) -> usize
    ensures { Lower a b result }
{
    if a < b {
        return a;
    }
    b
}

// How far the bytes of a set go from a place, where they are known to go up to another: at most 127. An identifier's bytes are of any
// set that is lent here, so that rows of them can be passed over.
fn long(s: &[u8], from: usize, at: usize, set: &[u64; 4]) -> usize
    requires { Begun set.now s.now from at }
    ensures { Past (among set.now) s.now from (from + 127) result }
{
    let bound = from + 127;
    let to = lower(s.len(), bound);
    let next = ahead(s, at, to);
    past(s, next, to, set)
}

// A run that was left at a place ends there if the bytes do, or a zero byte follows.
fn ended(s: &[u8], from: usize, i: usize) -> Option<u32>
    requires { (from ≤ i) × (i ≤ from + 127) }
    ensures { spelt_as_paper result ≡ left_at s.now from i }
{
    let n = (i - from) as u32;
    if s.len() <= i {
        return Some(n);
    }
    if s[i] != 0 {
        return None;
    }
    Some(n)
}

// From a place up to the first zero byte: how many bytes, if at most 127 and each is of a set. Most names are short: the first bytes
// are looked at one by one, and only a long name costs a call. They are fifteen, since 127 is 15 and seven rows of sixteen.
fn run(s: &[u8], from: usize, set: &[u64; 4]) -> Option<u32>
    requires { Begun set.now s.now from from }
    ensures { spelt_as_paper result ≡ run_length (among set.now) 127 (drop from s.now) }
{
    let bound = from + 15;
    let near = lower(s.len(), bound);
    let i = past(s, from, near, set);
    if i < near {
        return ended(s, from, i);
    }
    let end = long(s, from, i, set);
    ended(s, from, end)
}

// How many bytes the identifier at an offset has, or that the name there is none. A byte of the set from 64 on is no digit, so it
// may be the first.
pub fn identifier(strings: &[u8], at: NameOff) -> Option<u32>
    ensures { spelt_as_paper result ≡ identifier_length (name_in strings.now at.0) }
{
    let from = at.0 as usize;
    if strings.len() <= from {
        return None;
    }
    if strings[from] < 64 {
        return None;
    }
    run(strings, from, &WORD)
}

// The name at an offset is one that a section may have.
pub fn section_name(strings: &[u8], at: NameOff) -> bool
    ensures { result ≡ is_section_name (name_in strings.now at.0) }
{
    let from = at.0 as usize;
    if strings.len() <= from {
        return false;
    }
    if strings[from] == 0 {
        return false;
    }
    let end = long(strings, from, from, &PRINTED);
    match ended(strings, from, end) {
        Some(_) => true,
        None => false,
    }
}
