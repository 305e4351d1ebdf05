// A house list's fields, taken one by one from any bytes: the first fault, or how long the sections of its table are.
#![tactic(auto)]

mod one; // one field
mod bodies; // a body, in as many fields as it takes
mod records; // a record's body
mod whole; // the string section, then every record

pub use whole::{Sections, measure};
