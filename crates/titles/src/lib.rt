// A type as it is named in a line: number, kind, name, and how the numbers of its base are read.
#![tactic(auto)]

mod kinds; // a type in a line
mod measures; // a size

pub use kinds::{
    KIND_NAMES, put_based, put_entry_name, put_kind, put_many, put_numbers, put_record, put_type,
};
pub use measures::put_size;
