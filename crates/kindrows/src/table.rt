// The rows of the kinds, a line for each and a byte for each column, as in the definition; what a number means stands in
// specs/Codes.antt. A match and no const array: that would be laid on the stack at each look.
ghost use Rattle.std.specs.Prelude.{◌≡◌};
ghost use Rattle.paper.specs.rules.Kind.{row_of};
ghost use Rattle.kindrows.specs.Codes.{head_code, tail_code};

use crate::names::{
    ARRAY, CONST, DATASEC, DECL_TAG, ENUM, ENUM64, FLOAT, FUNC, FUNC_PROTO, FWD, INT, PTR,
    RESTRICT, STRUCT, TYPE_TAG, TYPEDEF, UNION, VAR, VOLATILE,
};

// Where the first by-value reference stands (0 for none); kind_flag, vlen, third word (0 only 0, 1 a FUNC's linkage, 2 an INT's sizes, 3 an ENUM's, 4 a FLOAT's, 5 any); the third word's role;
// name; size (0 none, 1 eight, 2 the size word, 3 count times element, 4 the referent's).
pub fn head_row(kind: u32) -> u64
    ensures { result ≡ head_code (row_of kind) }
{
    match kind {
        INT => 0x00_00_00_02_00_02_02,
        PTR => 0x00_00_00_05_07_01_01,
        ARRAY => 0x0c_00_00_00_00_01_03,
        STRUCT => 0x10_05_05_05_00_03_02,
        UNION => 0x10_05_05_05_00_03_02,
        ENUM => 0x00_05_05_03_00_03_02,
        FWD => 0x00_05_00_00_00_04_00,
        TYPEDEF => 0x08_00_00_05_0d_04_04,
        VOLATILE => 0x08_00_00_05_0d_01_04,
        CONST => 0x08_00_00_05_0d_01_04,
        RESTRICT => 0x08_00_00_05_0d_01_04,
        FUNC => 0x00_00_01_05_0a_04_00,
        FUNC_PROTO => 0x00_00_05_05_07_01_00,
        VAR => 0x08_00_00_05_0e_04_04,
        DATASEC => 0x00_00_05_05_00_06_02,
        FLOAT => 0x00_00_00_04_00_02_02,
        DECL_TAG => 0x00_05_00_05_0c_05_00,
        TYPE_TAG => 0x08_05_00_05_0d_05_04,
        ENUM64 => 0x00_05_05_03_00_03_02,
        _ => 0x00_00_00_05_00_01_00, // no kind
    }
}

// Words that stand once and three roles, words of an entry and three roles. Roles: 0 a plain number; 1 to 6 a name (offset 0,
// any, offset 0 or an identifier, an identifier, not empty, a section's); 7 to 12 a reference (to void or a plain kind, a plain
// one, an INT, a prototype, a variable, what a tag may have); 13 to 18 the same by value.
pub fn tail_row(kind: u32) -> u64
    ensures { result ≡ tail_code (row_of kind) }
{
    match kind {
        INT => 0x01_00_00_00_00_00_00_00,
        PTR => 0x00_00_00_00_00_00_00_00,
        ARRAY => 0x03_0e_09_00_00_00_00_00,
        STRUCT => 0x00_00_00_00_03_03_0e_00,
        UNION => 0x00_00_00_00_03_03_0e_00,
        ENUM => 0x00_00_00_00_02_04_00_00,
        FWD => 0x00_00_00_00_00_00_00_00,
        TYPEDEF => 0x00_00_00_00_00_00_00_00,
        VOLATILE => 0x00_00_00_00_00_00_00_00,
        CONST => 0x00_00_00_00_00_00_00_00,
        RESTRICT => 0x00_00_00_00_00_00_00_00,
        FUNC => 0x00_00_00_00_00_00_00_00,
        FUNC_PROTO => 0x00_00_00_00_02_03_07_00,
        VAR => 0x01_00_00_00_00_00_00_00,
        DATASEC => 0x00_00_00_00_03_0b_00_00,
        FLOAT => 0x00_00_00_00_00_00_00_00,
        DECL_TAG => 0x01_00_00_00_00_00_00_00,
        TYPE_TAG => 0x00_00_00_00_00_00_00_00,
        ENUM64 => 0x00_00_00_00_03_04_00_00,
        _ => 0x00_00_00_00_00_00_00_00, // no kind
    }
}
