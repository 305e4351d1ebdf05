// A .BTF.ext section beside its table, in words: how much it holds, each record, and where one that is refused is at fault.
#![tactic(auto)]

mod pointed; // the bytes that a refusal is about
mod shown; // each record in a line
mod walks; // what a section holds, one thing after another
mod whole; // the files, the check, the answer

pub use whole::ext_files;
