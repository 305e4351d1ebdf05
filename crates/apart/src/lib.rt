// The cut as a verb of the tool: a joined table is taken apart, and both parts are saved.
#![tactic(auto)]

mod halves; // both parts are saved, or why there are none
mod whole; // the table is read and cut

pub use whole::{Cut, cut_files};
