// The kinds by their names.

// Kinds 1 to 19, by the paper's names. Numbers and no enum: an info word of any bytes has one of 32, and what is promised of a kind (`kind_of`,
// `head_row`, `tail_row`) is promised of the 13 too that are none.
pub const INT: u32 = 1;

pub const PTR: u32 = 2;

pub const ARRAY: u32 = 3;

pub const STRUCT: u32 = 4;

pub const UNION: u32 = 5;

pub const ENUM: u32 = 6;

pub const FWD: u32 = 7;

pub const TYPEDEF: u32 = 8;

pub const VOLATILE: u32 = 9;

pub const CONST: u32 = 10;

pub const RESTRICT: u32 = 11;

pub const FUNC: u32 = 12;

pub const FUNC_PROTO: u32 = 13;

pub const VAR: u32 = 14;

pub const DATASEC: u32 = 15;

pub const FLOAT: u32 = 16;

pub const DECL_TAG: u32 = 17;

pub const TYPE_TAG: u32 = 18;

pub const ENUM64: u32 = 19;
