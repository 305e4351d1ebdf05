// The words behind `ext`: a table, the section that stands beside it, and --show.
use crate::arguments::{are_whole, is_word, place};
use extwords::ext_files;
use files::{Status, arg, arg_count};
use texts::first_of;
use wrongs::{Wrong, wrong_at};

fn ext_named(rt: &HostRuntime, first: u32, is_shown: bool) -> Status {
    let mut table = [0u8; 4096];
    let mut section = [0u8; 4096];
    let table_n = arg(rt, place(first, 1), &mut table);
    let section_n = arg(rt, place(first, 2), &mut section);
    ext_files(
        rt,
        first_of(&table, table_n),
        first_of(&section, section_n),
        is_shown,
    )
}

// Standard input can be read once.
pub(crate) fn ext_call(rt: &HostRuntime, first: u32, behind: usize) -> Status {
    if !are_whole(rt, place(first, 1), arg_count(rt)) {
        return Status::Failed;
    }
    if is_word(rt, place(first, 1), b"-") {
        if is_word(rt, place(first, 2), b"-") {
            return wrong_at(rt, place(first, 2), Wrong::TwoBeside);
        }
    }
    if behind < 3 {
        return ext_named(rt, first, false);
    }
    if !is_word(rt, place(first, 3), b"--show") {
        return wrong_at(rt, place(first, 3), Wrong::NoShow);
    }
    ext_named(rt, first, true)
}
