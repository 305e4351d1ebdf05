// A text of several lines, of which one is picked by its number. A match whose arms each write would say the same, and is
// proved in ten times the time.
ghost use Rattle.std.specs.Prelude.{◌≡◌, ◌≢◌, ℕ, ◌<◌, ◌≤◌, length, slice_index, MatchOption};
ghost use Rattle.texts.specs.First.{FirstOf};
ghost use Rattle.texts.specs.Line.{EndOf, LineOf, StartOf};

// The first newline of some bytes.
fn newline_in(s: &[u8]) -> Option<usize>
    ensures found { MatchOption result ((k : ℕ) → k < length s.now → slice_index s.now k ≢ 10) (λ n. slice_index s.now n ≡ 10) }
    ensures first { MatchOption result (Unit {0}) (λ n. (n < length s.now) × ((k : ℕ) → k < n → slice_index s.now k ≢ 10)) }
{
    s.iter().position(|c| *c == b'\n')
}

// Where the line that a place stands in ends.
fn line_end(s: &[u8], from: usize) -> usize
    requires { from ≤ length s.now }
    ensures { EndOf s.now from result }
{
    match newline_in(&s[from..]) {
        Some(n) => from + n,
        None => s.len(),
    }
}

// Where a line begins, counted from 0; the end where there are fewer.
fn line_start(s: &[u8], k: u32) -> usize
    ensures { StartOf s.now k result }
{
    let mut at = 0;
    for _ in 0..k {
        at = line_end(s, at);
        if at < s.len() {
            at += 1;
        }
    }
    at
}

// A line, counted from 0; nothing where there are fewer.
pub fn line(s: &[u8], k: u32) -> &[u8]
    ensures { LineOf result s.entry k }
{
    let from = line_start(s, k);
    let end = line_end(s, from);
    &s[from..end]
}

// The first so many bytes; all where there are fewer.
pub fn first_of(s: &[u8], n: usize) -> &[u8]
    ensures { FirstOf result s.entry n }
{
    if s.len() < n {
        return s;
    }
    &s[..n]
}
