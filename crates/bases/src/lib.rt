// What the tool's lines are made of: where a record and its entries stand, what the base of a type is, and how its numbers are
// read. Total: what is not there reads as zeros.
#![tactic(auto)]

mod places; // where a record and its entries stand
mod signs; // how numbers are read

pub use places::{base_of, fourth_of, long_entry, record_of, short_entry};
pub use signs::sign_of;
