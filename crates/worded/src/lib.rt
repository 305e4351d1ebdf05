// The words of a record, each with its place, its bytes and what it is.
#![tactic(auto)]

mod behind; // the words behind a head, as many as are shown
mod heads; // a record's head, word by word
mod referents; // what stands at a number that a word refers to
mod tails; // what a word behind a head is

pub use behind::put_tail;
pub use heads::put_head;

// What a record is looked at for: a report's number; how many types there are; the bytes that break the rule, none where both
// places are the same.
#[derive(Clone, Copy)]
pub struct Look {
    pub number: u32, // as it is printed, by which rules and roles are picked from tables
    pub n: u32,
    pub from: usize,
    pub to: usize,
}
