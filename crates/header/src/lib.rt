// Phase 1 of any blob, by itself or behind a base, and the names that stand behind its header.
#![tactic(auto)]

mod first; // phase 1: reports 1 to 5
mod names; // the name at an offset, where it lies, and whether there is none
mod orders; // report 26: the two orders

pub use first::{Sections, read, read_behind};
pub use names::{name, name_behind, nameless, nameless_behind, part, part_behind};
pub use orders::other_opening;
