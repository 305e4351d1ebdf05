// `--base BASE`, which may stand as the last two words of a call.
use crate::arguments::{argument, is_word, last, word_from};

// The first argument from a place on that is `--base`.
pub(crate) fn flag_from(rt: &HostRuntime, from: usize, count: usize) -> Option<usize> {
    word_from(rt, b"--base", from, count)
}

// An argument that no file can have as its name, or that is `--base` once more.
fn is_no_name(rt: &HostRuntime, i: usize) -> bool {
    is_word(rt, i, b"") || is_word(rt, i, b"--base")
}

// Behind `--base` at a place stands one word, which can name a file.
pub(crate) fn is_last(rt: &HostRuntime, flag: usize, count: usize) -> bool {
    if count <= flag {
        return false;
    }
    if count - flag != 2 {
        return false;
    }
    !is_no_name(rt, last(rt))
}

// The name of the base's file, if it is there as a whole; no bytes where there is no base.
pub(crate) fn base_word(rt: &HostRuntime, s: &mut [u8]) -> Option<usize> {
    let i = last(rt);
    if i == 0 {
        return Some(0);
    }
    if !is_word(rt, i - 1, b"--base") {
        return Some(0);
    }
    argument(rt, i, s)
}
