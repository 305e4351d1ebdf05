// What the tool writes: pieces that wait in a buffer.
#![tactic(auto)]

mod out; // the buffer
mod streams; // the standard streams' descriptors

pub use out::Out;
pub use streams::{STDERR_FILENO, STDIN_FILENO, STDOUT_FILENO};
