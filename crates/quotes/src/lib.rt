// Bytes that others chose, as they stand in a line: nothing that they hold can be taken for the tool's own words.
#![tactic(auto)]

mod escapes; // bytes between quotes
mod names; // names, and names of files

pub use names::{cut_text, file_text, name_text};
