// A line of bytes with their place; the header in such lines, field by field; and what bytes that are no table are instead.
#![tactic(auto)]

mod bytes; // a line of bytes
mod hints; // what else the bytes are
mod opening; // the header, field by field

pub use bytes::{is_in_base, put_bare, put_bytes, put_next, told_place};
pub use hints::put_hint;
pub use opening::put_header;
