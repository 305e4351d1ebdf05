// The tool: what each call of it asks, and the status that is told.
#![tactic(auto)]

mod arguments; // the arguments by their numbers
mod based; // the base behind a call
mod beside; // the words behind `ext`
mod calls; // the arguments: which verb, of what
mod halves; // the words behind `cut`
mod joining; // the words behind `join`
mod keeping; // the words behind `list` and `make`
mod records; // the words behind `read`
mod verbs; // which verbs there are

pub use calls::run;
