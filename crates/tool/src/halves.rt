// The words behind `cut`: a joined table, where it is cut, and two outputs.
use crate::arguments::{are_whole, is_word, number_at, place};
use apart::{Cut, cut_files};
use files::{Modes, Status, arg, arg_count};
use texts::first_of;
use wrongs::{Wrong, wrong_at};

// Two arguments are one word.
fn are_same(rt: &HostRuntime, i: usize, j: usize) -> bool {
    let mut s = [0u8; 4096];
    let n = arg(rt, i, &mut s);
    is_word(rt, j, first_of(&s, n))
}

// A mode that the launcher asks for in front of the verb.
fn mode_at(rt: &HostRuntime, i: usize) -> Option<u32> {
    if is_word(rt, 1, b"--status-modes") {
        return number_at(rt, i);
    }
    None
}

// All words are right: JOINED, FIRST where it is cut like that, OUT1 and OUT2.
fn cut_named(rt: &HostRuntime, verb: u32, cut: Option<Cut>) -> Status {
    let mut joined = [0u8; 4096];
    let mut like = [0u8; 4096];
    let mut one = [0u8; 4096];
    let mut two = [0u8; 4096];
    let joined_n = arg(rt, place(verb, 1), &mut joined);
    let like_n = arg(rt, place(verb, 3), &mut like);
    let one_n = arg(rt, place(verb, 4), &mut one);
    let two_n = arg(rt, place(verb, 5), &mut two);
    let modes = Modes {
        one: mode_at(rt, 2),
        two: mode_at(rt, 3),
    };
    cut_files(
        rt,
        first_of(&joined, joined_n),
        cut,
        first_of(&like, like_n),
        first_of(&one, one_n),
        first_of(&two, two_n),
        modes,
    )
}

// As the table in a file was. Standard input can be read once.
fn cut_like(rt: &HostRuntime, verb: u32) -> Status {
    if is_word(rt, place(verb, 1), b"-") {
        if is_word(rt, place(verb, 3), b"-") {
            return wrong_at(rt, place(verb, 3), Wrong::TwoTables);
        }
    }
    cut_named(rt, verb, None)
}

// Behind so many types.
fn cut_behind(rt: &HostRuntime, verb: u32, types: u32) -> Status {
    match number_at(rt, place(verb, 3)) {
        Some(strings) => cut_named(rt, verb, Some(Cut { types, strings })),
        None => wrong_at(rt, place(verb, 3), Wrong::NoLength),
    }
}

fn cut_by(rt: &HostRuntime, verb: u32) -> Status {
    if is_word(rt, place(verb, 2), b"--like") {
        return cut_like(rt, verb);
    }
    match number_at(rt, place(verb, 2)) {
        Some(types) => cut_behind(rt, verb, types),
        None => wrong_at(rt, place(verb, 2), Wrong::NoCount),
    }
}

// OUT1 and OUT2 are files that are renamed, and one would take the place of the other.
pub(crate) fn cut_call(rt: &HostRuntime, verb: u32) -> Status {
    if !are_whole(rt, place(verb, 1), arg_count(rt)) {
        return Status::Failed;
    }
    if is_word(rt, place(verb, 4), b"-") {
        return wrong_at(rt, place(verb, 4), Wrong::NoOuts);
    }
    if is_word(rt, place(verb, 5), b"-") {
        return wrong_at(rt, place(verb, 5), Wrong::NoOuts);
    }
    if are_same(rt, place(verb, 4), place(verb, 5)) {
        return wrong_at(rt, place(verb, 5), Wrong::OneOut);
    }
    cut_by(rt, verb)
}
