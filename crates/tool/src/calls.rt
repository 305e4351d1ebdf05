// The arguments: which verb, of which files and numbers; and how the status is told.
use crate::arguments::{argument, is_word, last, number_at, place};
use crate::based::{base_word, flag_from, is_last};
use crate::beside::ext_call;
use crate::halves::cut_call;
use crate::joining::join_call;
use crate::keeping::keep_call;
use crate::records::read_call;
use crate::verbs::{Verb, is_of_one, least, most, too_few, too_many, verb_at};
use asks::{Ask, ask_file};
use files::{Status, arg_count};
use std::process::ExitCode;
use texts::first_of;
use wrongs::{Wrong, help, no_words, wrong_at};

// The descriptor on which the launcher waits for the status.
const STATUS: i32 = 3;

// What a shell calls the end by SIGPIPE, which is ignored here: 128 and the signal's number.
const GONE: u8 = 141;

// How many words there are from the verb on.
fn words_from(first: u32, count: usize) -> usize {
    count.saturating_sub(first as usize)
}

// A question about the table in a file, and in its base's where it has one. Standard input can be read once.
fn ask_of_files(rt: &HostRuntime, ask: Ask, file: &[u8], base: &[u8], name: &[u8]) -> Status {
    if check::same(file, b"-") {
        if check::same(base, b"-") {
            return wrong_at(rt, last(rt), Wrong::TwoBases);
        }
    }
    ask_file(rt, ask, file, base, name)
}

// A question about the table in the file that an argument names, by a name where it has one.
fn ask_by(rt: &HostRuntime, ask: Ask, i: usize, name: &[u8]) -> Status {
    let mut s = [0u8; 4096];
    let mut base = [0u8; 4096];
    let file_n = argument(rt, i, &mut s);
    let base_n = base_word(rt, &mut base); // what is wrong with either is told
    let (Some(n), Some(m)) = (file_n, base_n) else {
        return Status::Failed;
    };
    ask_of_files(rt, ask, first_of(&s, n), first_of(&base, m), name)
}

fn ask_at(rt: &HostRuntime, ask: Ask, i: usize) -> Status {
    ask_by(rt, ask, i, b"")
}

// The types that have the name that an argument is; no type is asked for by no name.
fn ask_named(rt: &HostRuntime, first: u32) -> Status {
    let mut s = [0u8; 4096];
    let i = place(first, 2);
    let Some(n) = argument(rt, i, &mut s) else {
        return Status::Failed;
    };
    if n == 0 {
        return wrong_at(rt, i, Wrong::NoTypeName);
    }
    ask_by(rt, Ask::Named, place(first, 1), first_of(&s, n))
}

// What a verb asks of a table, with a number.
fn ask_of(verb: Verb, n: u32) -> Ask {
    match verb {
        Verb::Size => Ask::Size(n),
        Verb::Name => Ask::Name(n),
        _ => Ask::One(n),
    }
}

// A word that is no number: `show` takes it for a name.
fn no_number(rt: &HostRuntime, verb: Verb, first: u32) -> Status {
    match verb {
        Verb::Show => ask_named(rt, first),
        Verb::Name => wrong_at(rt, place(first, 2), Wrong::NoOffset),
        _ => wrong_at(rt, place(first, 2), Wrong::NoType),
    }
}

// A verb with a file and a number behind it.
fn ask_numbered(rt: &HostRuntime, verb: Verb, first: u32) -> Status {
    match number_at(rt, place(first, 2)) {
        Some(n) => ask_at(rt, ask_of(verb, n), place(first, 1)),
        None => no_number(rt, verb, first),
    }
}

// A verb with as many words behind it as it may have. A match and no table of functions: each verb reads its words in its own way.
fn call_by(rt: &HostRuntime, verb: Verb, first: u32, behind: usize) -> Status {
    match verb {
        Verb::Check => ask_at(rt, Ask::Check, place(first, 1)),
        Verb::Show => {
            if behind == 1 {
                return ask_at(rt, Ask::All, place(first, 1));
            }
            ask_numbered(rt, verb, first)
        }
        Verb::Size => ask_numbered(rt, verb, first),
        Verb::Name => ask_numbered(rt, verb, first),
        Verb::Join => join_call(rt, first, behind),
        Verb::Cut => cut_call(rt, first),
        Verb::List => keep_call(rt, first, behind, false),
        Verb::Make => keep_call(rt, first, behind, true),
        Verb::Ext => ext_call(rt, first, behind),
        Verb::Read => read_call(rt, first, behind),
        Verb::Help => help(),
    }
}

// A verb with so many words behind it.
fn call_with(rt: &HostRuntime, verb: Verb, first: u32, behind: usize) -> Status {
    if behind < least(verb) {
        return wrong_at(rt, place(first, 0), too_few(verb));
    }
    if most(verb) < behind {
        return wrong_at(rt, place(first, 0), too_many(verb));
    }
    call_by(rt, verb, first, behind)
}

// A verb with so many words behind it, of which the argument `flag` is the first `--base`.
fn call_based(
    rt: &HostRuntime,
    verb: Verb,
    first: u32,
    behind: usize,
    flag: usize,
    count: usize,
) -> Status {
    if !is_of_one(verb) {
        return wrong_at(rt, flag, Wrong::NotBased);
    }
    if behind < 2 {
        return wrong_at(rt, flag, Wrong::NoBase);
    }
    if !is_last(rt, flag, count) {
        return wrong_at(rt, flag, Wrong::NoBase);
    }
    call_with(rt, verb, first, behind - 2)
}

// The call that stands from the argument `first` on.
fn call(rt: &HostRuntime, first: u32) -> Status {
    let count = arg_count(rt);
    let given = words_from(first, count);
    if given == 0 {
        return no_words();
    }
    let Some(verb) = verb_at(rt, place(first, 0)) else {
        return wrong_at(rt, place(first, 0), Wrong::Unknown);
    };
    match flag_from(rt, place(first, 1), count) {
        Some(flag) => call_based(rt, verb, first, given - 1, flag, count),
        None => call_with(rt, verb, first, given - 1),
    }
}

// One digit on a descriptor of the launcher's stands for the status. None does where nobody reads the output any more.
fn tell(s: Status) -> bool {
    match s {
        Status::Done => io::write_all(STATUS, b"0"),
        Status::Refused => io::write_all(STATUS, b"1"),
        Status::Failed => io::write_all(STATUS, b"2"),
        Status::Gone => true,
    }
}

// The process ends as one that the signal for such an output has ended; else well, since the digit says the rest.
fn code_of(s: Status) -> ExitCode {
    match s {
        Status::Gone => ExitCode::from(GONE),
        _ => ExitCode::SUCCESS,
    }
}

// The whole tool. The status is told where the first argument asks for it; behind it the modes of two new files can stand.
pub fn run(rt: &HostRuntime) -> ExitCode {
    if is_word(rt, 1, b"--status") {
        let status = call(rt, 2);
        tell(status);
        return code_of(status);
    }
    if is_word(rt, 1, b"--status-modes") {
        let status = call(rt, 4);
        tell(status);
        return code_of(status);
    }
    code_of(call(rt, 1))
}
