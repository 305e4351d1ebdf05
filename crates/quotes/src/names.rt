// A name and a file's name, as they stand in a line: bare where they are of plain bytes, else between quotes. So no name can
// speak for the tool, nor end its own quotes.
ghost use Rattle.std.specs.Prelude.{false, true, ◌≡◌, ◌↔◌, EachIndex, IsTrue, slice_index};
ghost use Rattle.paper.specs.rules.Name.{between, is_identifier};
ghost use Rattle.quotes.specs.Quote.{TextIn, is_path, is_path_byte};

use crate::escapes::quote;
use idents::identifier;
use paper::NameOff;
use words::lay;

// All of the bytes are an identifier: one that is cut by a zero byte is shorter.
fn is_identifier(s: &[u8]) -> bool
    ensures { result ≡ is_identifier s.now }
{
    match identifier(s, NameOff(0)) {
        Some(n) => n as usize == s.len(),
        None => false,
    }
}

fn is_between(low: u8, high: u8, c: u8) -> bool
    ensures { result ≡ between low high c }
{
    low <= c && c <= high
}

// A letter, a digit, or one of - . / @ _
fn is_path_byte(c: u8) -> bool
    ensures { result ≡ is_path_byte c }
{
    if is_between(45, 57, c) {
        return true;
    }
    if is_between(64, 90, c) {
        return true;
    }
    if is_between(97, 122, c) {
        return true;
    }
    c == 95
}

// Every byte is one of a file's name.
fn are_path_bytes(s: &[u8]) -> bool
    ensures { IsTrue result ↔ EachIndex s.now (λ k. is_path_byte (slice_index s.now k) ≡ true) }
{
    s.iter().all(|c| is_path_byte(*c))
}

// The bytes are a file's name that needs no quotes.
fn is_path(s: &[u8]) -> bool
    ensures { result ≡ is_path s.now }
{
    if s.len() == 0 {
        return false;
    }
    are_path_bytes(s)
}

// The bytes, bare or between quotes, are put at the start of the output; how many they are is answered. Nothing is put, and 0
// answered, where the output has under four bytes for each and two more.
fn text(bare: bool, s: &[u8], out: &mut [u8]) -> usize
    ensures { TextIn bare s.now out.old result out.new }
{
    if out.len() < 2 {
        return 0;
    }
    if (out.len() - 2) / 4 < s.len() {
        return 0;
    }
    if bare {
        lay(out, 0, s);
        return s.len();
    }
    quote(s, out)
}

// A name is bare where it is an identifier.
pub fn name_text(s: &[u8], out: &mut [u8]) -> usize
    ensures { TextIn (is_identifier s.now) s.now out.old result out.new }
{
    text(is_identifier(s), s, out)
}

// What is cut from a longer name never stands bare.
pub fn cut_text(s: &[u8], out: &mut [u8]) -> usize
    ensures { TextIn false s.now out.old result out.new }
{
    text(false, s, out)
}

// A file's name is bare where it is of plain bytes.
pub fn file_text(s: &[u8], out: &mut [u8]) -> usize
    ensures { TextIn (is_path s.now) s.now out.old result out.new }
{
    text(is_path(s), s, out)
}
