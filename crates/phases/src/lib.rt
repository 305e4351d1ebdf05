// Phases 3 to 6, reports 10 to 15, over the types of the table that an index shows: of any bytes, so that whatever is checked, a table that
// stands alone or one that leans on a base, is judged by the same functions.
#![tactic(auto)]

mod judged; // phases 4 to 6, and all four: the earliest speaks
mod types; // phases 3 and 6 over the types: reports 10 to 12 and 15

pub use judged::{judge, later};
