// What is remembered of each type in the work slice, and what it tells: so that no chain is walked twice. Any bytes, any slice.
#![tactic(auto)]

mod codes; // what is to be remembered of a type
mod named; // a prototype that names its parameters
mod telling; // what a slice tells: a base, the end of a line, a size

pub use codes::mark_of;
pub use named::all_named;
pub use telling::{FIRST_TELLING, base_told, size_at, size_told, told};
