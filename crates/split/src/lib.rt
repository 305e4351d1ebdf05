// A joined table taken apart: "Given a joined table, a type count and a string length, give back the two tables."
#![tactic(auto)]

mod blobs; // a piece of a blob is written
mod parts_of; // the two parts, each a piece
mod whole; // the check, the cut, the lengths, the answer

pub use whole::split;
