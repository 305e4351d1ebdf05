// The words behind `list` and `make`: --text or not, what is read, and OUT.
use crate::arguments::{are_whole, is_word, place};
use files::{Status, arg, arg_count};
use keeps::{list_file, list_text_file, make_file, make_text_file};
use texts::first_of;
use wrongs::{Wrong, wrong_at};

// What is read is the argument `i`, and OUT the argument `k`, a file that is renamed.
fn keep_files(rt: &HostRuntime, i: usize, k: usize, is_back: bool, is_text: bool) -> Status {
    if is_word(rt, k, b"-") {
        return wrong_at(rt, k, Wrong::NoOut);
    }
    let mut file = [0u8; 4096];
    let mut out = [0u8; 4096];
    let file_n = arg(rt, i, &mut file);
    let out_n = arg(rt, k, &mut out);
    let from = first_of(&file, file_n);
    let to = first_of(&out, out_n);
    // Two flags: one verb and one word each say which file is read and how, and they are asked for here alone.
    match (is_text, is_back) {
        (true, true) => make_text_file(rt, from, to),
        (true, false) => list_text_file(rt, from, to),
        (false, true) => make_file(rt, from, to),
        (false, false) => list_file(rt, from, to),
    }
}

// Two words stand behind the verb, or three of which the first is --text.
pub(crate) fn keep_call(rt: &HostRuntime, verb: u32, behind: usize, is_back: bool) -> Status {
    if !are_whole(rt, place(verb, 1), arg_count(rt)) {
        return Status::Failed;
    }
    if is_word(rt, place(verb, 1), b"--text") {
        if behind < 3 {
            return wrong_at(rt, place(verb, 0), Wrong::TooFew);
        }
        return keep_files(rt, place(verb, 2), place(verb, 3), is_back, true);
    }
    if 2 < behind {
        return wrong_at(rt, place(verb, 0), Wrong::TooMany);
    }
    keep_files(rt, place(verb, 1), place(verb, 2), is_back, false)
}
