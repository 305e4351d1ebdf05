// Phase 6, report 15 of one type, of any table that an index shows.
#![tactic(auto)]

mod sized; // what a rule asks of another type's size
mod kinds; // by kind, the rule that speaks of a type
mod members; // structs and unions
mod others; // arrays, functions and tags
mod sections; // sections

pub use kinds::layout_ok;
pub use members::follows;
pub use sections::placed;
