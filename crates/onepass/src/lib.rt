// A table that is good for sure, told in one pass over its bytes: phases 2 to 6 at once. What is not told here the phases judge.
#![tactic(auto)]

mod back; // those that refer to later types, from the last to the first
mod forth; // all records, from the first to the last
mod seen; // one record
mod whole; // both ways

pub use whole::{Sure, pass};
