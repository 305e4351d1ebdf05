// The gate: the check of any bytes.
#![tactic(auto)]

mod whole; // all phases, and what is left in the lent slices

pub use whole::check;
