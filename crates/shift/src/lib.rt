// Records with new numbers: each word raised by its role, once for all kinds.
#![tactic(auto)]

mod groups; // words raised by their roles
mod headers; // the header of what is made of them
mod records; // a record, and so many one behind the other

pub use groups::Shift;
pub use headers::put_header;
pub use records::raise_records;
