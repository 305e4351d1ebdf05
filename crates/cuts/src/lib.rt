// Order 14: whether a table can be cut behind so many types and so many bytes of strings. "No reference and no name crosses it".
#![tactic(auto)]

mod records; // the words of a record, each by its role
mod tables; // the records on either side, and the strings

pub use records::{Cut, keeps};
pub use tables::cut_ok;
