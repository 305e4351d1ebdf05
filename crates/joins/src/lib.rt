// The join as a verb of the tool: files are read and joined from the left, the joined table is saved, and what the tables have in two
// shapes is told.
#![tactic(auto)]

mod given; // which arguments name the tables
mod refusals; // what is told of a join that gives no table
mod same; // whether two types say the same
mod steps; // one table joined to those before it
mod twins; // types of one kind and name that differ
mod whole; // the join of all files

pub use given::{Given, TABLES, out_of, word_of};
pub use whole::join_files;
