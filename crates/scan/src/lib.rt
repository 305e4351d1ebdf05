// Phases 1 and 2 of any blob, by itself or behind a base, and the index that they leave.

#![tactic(auto)]

mod found; // both phases together: reports 1 to 9, and the index
mod places; // the index of an accepted blob
mod slices; // a lent slice is left all 0
mod walk; // phase 2: reports 6 to 8

pub use found::{scan, scan_behind};
pub use slices::clear;
