// A table that is good for sure, told by one look at each record.
#![tactic(auto)]

mod looks; // what a record says of its type
mod fields; // what a struct or a union with bit fields says
mod arrays; // what an ARRAY says
mod stored; // what a VAR or a DATASEC says
mod protos; // what a FUNC_PROTO or a FUNC says
mod whole; // over all types

pub use looks::{
    AWAITING, POINTER, STRANGE, behind_of, fits, int_whole, is_open, look, state_of, whole_bytes,
    whole_int,
};
pub use whole::glance;
