// The kinds: their names, and the row of each.
#![tactic(auto)]

mod names; // the kinds' names
mod table; // the kinds' rows

pub use names::{
    ARRAY, CONST, DATASEC, DECL_TAG, ENUM, ENUM64, FLOAT, FUNC, FUNC_PROTO, FWD, INT, PTR,
    RESTRICT, STRUCT, TYPE_TAG, TYPEDEF, UNION, VAR, VOLATILE,
};
pub use table::{head_row, tail_row};
