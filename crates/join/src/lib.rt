// The join of any two blobs.
#![tactic(auto)]

mod blob; // the joined blob is written
mod whole; // both checks, the limits, the answer

pub use whole::join;
