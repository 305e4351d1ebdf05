// The words behind `join`: a list of tables, and OUT.
use crate::arguments::{are_whole, is_word, word_from};
use files::{Status, arg_count};
use joins::{Given, TABLES, join_files, out_of, word_of};
use wrongs::{Wrong, wrong_at};

// How many words stand behind `join` at most.
pub(crate) const MOST: usize = TABLES as usize + 1;

// How many tables there are, of so many words the last of which is OUT.
fn tables_in(behind: usize) -> u32 {
    if behind == 0 {
        return 0;
    }
    if MOST < behind {
        return 0;
    }
    (behind - 1) as u32
}

// The second table that is standard input, which can be read once.
fn second_input(rt: &HostRuntime, from: usize, end: usize) -> Option<usize> {
    let one = word_from(rt, b"-", from, end)?;
    word_from(rt, b"-", one + 1, end)
}

fn two_inputs(rt: &HostRuntime, i: usize, count: u32) -> Status {
    if count == 2 {
        return wrong_at(rt, i, Wrong::TwoDashes);
    }
    wrong_at(rt, i, Wrong::OneInput)
}

// Standard input can be read once, and OUT is a file that is renamed.
fn join_given(rt: &HostRuntime, given: Given) -> Status {
    let from = word_of(given, 0);
    let out = out_of(given);
    if !are_whole(rt, from, arg_count(rt)) {
        return Status::Failed;
    }
    if is_word(rt, out, b"-") {
        return wrong_at(rt, out, Wrong::NoOut);
    }
    match second_input(rt, from, out) {
        Some(dash) => two_inputs(rt, dash, given.count),
        None => join_files(rt, given),
    }
}

// The tables behind the verb, which has so many words behind it.
pub(crate) fn join_call(rt: &HostRuntime, verb: u32, behind: usize) -> Status {
    join_given(
        rt,
        Given {
            verb,
            count: tables_in(behind),
        },
    )
}
