// What the tool reads of texts: one line of several, the first bytes of some, and a decimal argument.
#![tactic(auto)]

mod numbers; // a decimal argument
mod pieces; // a line of a text, the first bytes of some

pub use numbers::parse;
pub use pieces::{first_of, line};
