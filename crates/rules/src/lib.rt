// Phase 3 of one record, reports 10 to 12, from the bytes that begin with it and the strings of the base and of its own table. Any bytes.
#![tactic(auto)]

mod phase; // the smallest of the three that is due
mod quick; // records of which nothing is due

pub use phase::{Due, phase3};
pub use quick::nameless;
