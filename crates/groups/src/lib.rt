// Order 8: a .BTF.ext section beside the table that an index shows, of any bytes and any index, 41 to 48; and the records of a section alone.
#![tactic(auto)]

mod records; // one record, its words by their roles
mod walk; // records, groups and a part: one walk for all sorts of record
mod front; // the header, and where the parts begin and end
mod whole; // the whole section beside a table
mod find; // a part without a table beside it
mod asked; // the record question, of a section alone

pub use asked::{record_at, record_bytes};
pub use whole::judge;
