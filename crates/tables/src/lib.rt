// The table that a call is about: the one in a file, or the one that holds a base and the table that leans on it; and what is told where it
// is refused.
#![tactic(auto)]

mod laid; // which table it is
mod made; // a table that was made of others
mod refusals; // what is told of a refused table
mod standing; // one table that holds both

pub use laid::{Laid, lay_table};
pub use made::{count, put_made, saved};
pub use refusals::refused;
pub use standing::strings_len;
