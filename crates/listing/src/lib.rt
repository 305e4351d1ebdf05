// A table in words: a line for each type and entry.
#![tactic(auto)]

mod faults; // what can be read of a refused table
mod show; // the lines of a type
mod tables; // which types, and how much

pub use faults::show_before;
pub use show::put_title;
pub use tables::{NESTED, is_named, show_all, show_named, show_one};
