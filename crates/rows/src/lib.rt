// What an info word says, and the row of each kind: what its head may hold, the role of each word, where its size comes from.
#![tactic(auto)]

mod firsts; // the words of a head
mod heads; // what a head may hold
mod info; // the parts of an info word
mod aliases; // kinds that a rule takes together
mod columns; // a column of a kind's row
mod roles; // the role of each word

pub use aliases::is_alias;
pub use firsts::{info_of, name_of, third_of};
pub use heads::{flag_allowed, third_allowed, vlen_allowed};
pub use info::{flag_of, is_known, kind_of, vlen_of};
pub use roles::{
    entry_role, entry_words, held_place, is_held, is_name, is_reference, name_role, once_role,
    once_words, only_numbers, rule_of, size_rule, tail_words, third_role,
};
