// A table as a text that people read and edit: a line for its strings, then one for each type, each word in decimal behind what it is.
// There is one text of a table: what is read is held against what would be written.
#![tactic(auto)]

mod labels; // what stands before each word
mod names; // where a name stands in the strings
mod pens; // what is written, or held against what stands there
mod quoted; // what stands between quotes
mod records_in; // a type's line is read
mod records_out; // a type's line is written
mod spots; // lines and bytes as people count them
mod strings_in; // the line of strings is read
mod strings_out; // the line of strings is written
mod takes; // the smallest pieces of a line
mod whole_in; // a text is read
mod whole_out; // a text is written

pub use labels::LABELS;
pub use spots::{Spot, spot_of};
pub use takes::{Missed, Wanted};
pub use whole_in::take_text;
pub use whole_out::{hold_text, put_text};
