// Reading records as a verb of the tool: which table, which type, and where the records come from.
#![tactic(auto)]

mod digits; // bytes in hexadecimal
mod types; // which type is asked for
mod whole; // a table, a type of it, and records

pub use digits::{Undecoded, decode};
pub use whole::{Source, read_records};
