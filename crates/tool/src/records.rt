// The words behind `read`: a table, a type, and where its records come from.
use crate::arguments::{argument, last, place};
use crate::based::base_word;
use files::{Status, arg};
use logs::RECORD_LIMIT;
use reads::{Source, Undecoded, decode, read_records};
use texts::first_of;
use wrongs::{Wrong, wrong_at};

// As many bytes as one argument can have.
const LONGEST: usize = 131072;

// Standard input is already read from, as the table or as the records.
fn is_input_taken(table: &[u8], source: Source, given: &[u8]) -> bool {
    if check::same(table, b"-") {
        return true;
    }
    !matches!(source, Source::Bytes) && check::same(given, b"-")
}

// Records by a table, which leans on a base where one is named.
fn read_by_base(
    rt: &HostRuntime,
    table: &[u8],
    word: &[u8],
    source: Source,
    given: &[u8],
) -> Status {
    let mut base = [0u8; 4096];
    let Some(n) = base_word(rt, &mut base) else {
        return Status::Failed;
    };
    let base = first_of(&base, n);
    if check::same(base, b"-") {
        if is_input_taken(table, source, given) {
            return wrong_at(rt, last(rt), Wrong::TwoBases);
        }
    }
    read_records(rt, table, base, word, source, given)
}

// A record of so many bytes.
fn read_bytes(
    rt: &HostRuntime,
    table: &[u8],
    word: &[u8],
    s: &[u8; RECORD_LIMIT],
    n: usize,
) -> Status {
    read_by_base(rt, table, word, Source::Bytes, first_of(s, n))
}

// A record's bytes as digits, which are the argument of this number.
fn read_digits(rt: &HostRuntime, table: &[u8], word: &[u8], digits: &[u8], i: usize) -> Status {
    let mut s = [0u8; RECORD_LIMIT];
    match decode(digits, &mut s) {
        Ok(n) => read_bytes(rt, table, word, &s, n),
        Err(Undecoded::Odd) => wrong_at(rt, i, Wrong::OddDigits),
        Err(Undecoded::Stray) => wrong_at(rt, i, Wrong::NoDigits),
    }
}

fn read_digits_at(rt: &HostRuntime, table: &[u8], word: &[u8], i: usize) -> Status {
    let mut digits = [0u8; LONGEST];
    let Some(n) = argument(rt, i, &mut digits) else {
        return Status::Failed;
    };
    read_digits(rt, table, word, first_of(&digits, n), i)
}

// Behind the name of a file stands nothing, or that it has one record behind another.
fn read_named(
    rt: &HostRuntime,
    table: &[u8],
    word: &[u8],
    file: &[u8],
    first: u32,
    behind: usize,
) -> Status {
    if check::same(table, b"-") {
        if check::same(file, b"-") {
            return wrong_at(rt, place(first, 3), Wrong::TwoInputs);
        }
    }
    if behind < 4 {
        return read_by_base(rt, table, word, Source::One, file);
    }
    let mut s = [0u8; 4096];
    let i = place(first, 4);
    let n = arg(rt, i, &mut s);
    if !check::same(&s[..n], b"--each") {
        return wrong_at(rt, i, Wrong::NoEach);
    }
    read_by_base(rt, table, word, Source::Each, file)
}

fn read_by(
    rt: &HostRuntime,
    table: &[u8],
    word: &[u8],
    given: &[u8],
    first: u32,
    behind: usize,
) -> Status {
    if word.len() == 0 {
        return wrong_at(rt, place(first, 2), Wrong::NoTypeName);
    }
    if !check::same(given, b"--hex") {
        return read_named(rt, table, word, given, first, behind);
    }
    if behind < 4 {
        return wrong_at(rt, place(first, 3), Wrong::TooFew);
    }
    read_digits_at(rt, table, word, place(first, 4))
}

pub(crate) fn read_call(rt: &HostRuntime, first: u32, behind: usize) -> Status {
    let mut table = [0u8; 4096];
    let mut word = [0u8; 4096];
    let mut given = [0u8; 4096];
    let table_n = argument(rt, place(first, 1), &mut table);
    let word_n = argument(rt, place(first, 2), &mut word);
    let given_n = argument(rt, place(first, 3), &mut given); // what is wrong with any is told
    let (Some(n), Some(m), Some(k)) = (table_n, word_n, given_n) else {
        return Status::Failed;
    };
    read_by(
        rt,
        first_of(&table, n),
        first_of(&word, m),
        first_of(&given, k),
        first,
        behind,
    )
}
