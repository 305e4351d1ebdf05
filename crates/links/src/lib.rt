// Phases 4 and 5, reports 13 and 14, of the table that an index shows: every reference is good, and no walk of either sort is endless.
#![tactic(auto)]

mod chains; // phase 5: by-value walks
mod held; // a record's by-value references
mod pointers; // phase 5: walks over pointers, typedefs, qualifiers and tags
mod rings; // phase 5: the first of both sorts
mod whole; // both phases

pub use whole::{Unlinked, links};
