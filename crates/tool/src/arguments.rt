// The arguments of the call, by their numbers.
ghost use Rattle.std.specs.Prelude.{◌<◌, IfSome};

use files::{arg, arg_count, fail_text, whole_arg};
use texts::{first_of, parse};

// The place of an argument, counted from the verb on.
pub(crate) fn place(first: u32, k: u32) -> usize {
    (first as usize) + (k as usize)
}

// The number of the last argument.
pub(crate) fn last(rt: &HostRuntime) -> usize {
    arg_count(rt).saturating_sub(1)
}

// An argument's length in the lent bytes, if it is there as a whole; else standard error says why not.
pub(crate) fn argument(rt: &HostRuntime, i: usize, s: &mut [u8]) -> Option<usize> {
    match whole_arg(rt, i, s) {
        Ok(n) => Some(n),
        Err(why) => {
            fail_text(b"argument", why);
            None
        }
    }
}

fn is_whole(rt: &HostRuntime, i: usize) -> bool {
    let mut s = [0u8; 4096];
    argument(rt, i, &mut s).is_some()
}

// All arguments from a place on are there as a whole; standard error tells of each that is not.
pub(crate) fn are_whole(rt: &HostRuntime, from: usize, end: usize) -> bool {
    let mut all = true;
    for i in from..end {
        all = is_whole(rt, i) & all;
    }
    all
}

// The argument of this number is this word.
pub(crate) fn is_word(rt: &HostRuntime, i: usize, word: &[u8]) -> bool {
    let mut s = [0u8; 4096];
    let n = arg(rt, i, &mut s);
    check::same(first_of(&s, n), word)
}

// The first argument from a place on that is this word.
pub(crate) fn word_from(rt: &HostRuntime, word: &[u8], from: usize, end: usize) -> Option<usize>
    ensures { IfSome result (λ i. i < end) }
{
    for i in from..end {
        if is_word(rt, i, word) {
            return Some(i);
        }
    }
    None
}

pub(crate) fn number_at(rt: &HostRuntime, i: usize) -> Option<u32> {
    let mut s = [0u8; 4096];
    let n = arg(rt, i, &mut s);
    parse(first_of(&s, n))
}
