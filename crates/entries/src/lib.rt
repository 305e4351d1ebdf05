// The lines below a type: members, values, parameters and the entries of a section.
#![tactic(auto)]

mod below; // the lines of members
mod kinds; // an entry by the kind of its record

pub use below::{LEVELS, LINES, Listed, Span, plus, put_indent, put_more, put_taken, whole_bits};
pub use kinds::{put_entry, put_signed, value_entry, value_number};
