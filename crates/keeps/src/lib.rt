// The list as two verbs of the tool: a table is written out as its list, and a list is read back as its table; each as bytes and as a text.
#![tactic(auto)]

mod back; // a list is read, and its table saved
mod out; // a table is read, and its list saved
mod text_in; // a text is read, and its table saved
mod text_out; // a table is read, and its text saved
mod text_told; // why a text is no table's
mod told; // why nothing is saved

pub use back::make_file;
pub use out::list_file;
pub use text_in::make_text_file;
pub use text_out::list_text_file;
