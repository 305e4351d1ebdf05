// Files that are read and saved, the arguments, and how a call of the tool ends.
#![tactic(auto)]

mod arguments; // the arguments by their numbers
mod both; // two tables that are written, or neither
mod ends; // how a call ends
mod failures; // why something failed
mod reads; // files that are read
mod saves; // a table that is written
mod system; // files by names that are bytes

pub use arguments::{arg, arg_count, whole_arg};
pub use both::{Modes, save_both};
pub use ends::{Status, end, fail_output};
pub use failures::{fail, fail_text};
pub use reads::{Opened, READ_LIMIT, close_input, open_input, read_file, read_input};
pub use saves::{append, save};
