// A table written out as the house list, and read back.
#![tactic(auto)]

mod bodies; // a body in as many fields as it takes
mod making; // the table of a list is laid
mod reading; // the list, the lengths, the check of its table, the answer
mod tables; // the strings and the records, field by field
mod written; // the check, the length, the answer

pub use reading::read;
pub use written::write;
