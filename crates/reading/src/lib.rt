// A record in words: a line for each member, with its bytes and its value, and below it what it holds.
#![tactic(auto)]

mod contents; // what lies in a struct, a union or an array
mod numbers; // a value in words
mod walk; // the lines of a record

pub use walk::put_members;
