// A table that leans on a base: its check, the size of a type of either, and the name at an offset of both. Any bytes.
#![tactic(auto)]

mod checks; // the check
mod questions; // size and name

pub use checks::check_leaning;
pub use questions::{Lying, name_leaning, nameless_leaning, part_leaning, size_leaning};
