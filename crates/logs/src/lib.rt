// Records in words: one, of bytes or of a file, or as many as a file holds.
#![tactic(auto)]

mod each; // as many records as a file holds
mod one; // one record
mod said; // what stands around records

pub use each::show_each;
pub use one::{show_bytes, show_file};
pub use said::{Asked, RECORD_LIMIT, put_refusal};
