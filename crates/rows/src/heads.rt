// "Head (10)": which numbers the kind_flag, the vlen and the third word of each kind may be.
ghost use Rattle.std.specs.Prelude.{◌≡◌};
ghost use Rattle.paper.specs.rules.Heads.{allowed};
ghost use Rattle.paper.specs.rules.Kind.{row_of};
ghost use Rattle.kindrows.specs.Codes.{values_of};

use crate::columns::column;
use kindrows::head_row;

// A size that an ENUM or ENUM64 may have.
fn enum_size(w: u32) -> bool
    ensures { result ≡ allowed (values_of 3) w }
{
    matches!(w, 1 | 2 | 4 | 8)
}

// A size that an INT may have.
fn int_size(w: u32) -> bool
    ensures { result ≡ allowed (values_of 2) w }
{
    matches!(w, 1 | 2 | 4 | 8 | 16)
}

// A size that a FLOAT may have.
fn float_size(w: u32) -> bool
    ensures { result ≡ allowed (values_of 4) w }
{
    matches!(w, 2 | 4 | 8 | 12 | 16)
}

// A number is one of those that a code stands for.
fn allows(code: u32, w: u32) -> bool
    ensures { result ≡ allowed (values_of code) w }
{
    match code {
        0 => w == 0,
        1 => w <= 1,
        2 => int_size(w),
        3 => enum_size(w),
        4 => float_size(w),
        _ => true,
    }
}

// A kind may have this kind_flag.
pub fn flag_allowed(kind: u32, flag: u32) -> bool
    ensures { result ≡ allowed (row_of kind).flag flag }
{
    allows(column(head_row(kind), 0x1_00_00_00_00_00), flag)
}

// A kind may have this vlen.
pub fn vlen_allowed(kind: u32, vlen: u32) -> bool
    ensures { result ≡ allowed (row_of kind).vlen vlen }
{
    allows(column(head_row(kind), 0x1_00_00_00_00), vlen)
}

// A kind may have this third word.
pub fn third_allowed(kind: u32, third: u32) -> bool
    ensures { result ≡ allowed (row_of kind).third_values third }
{
    allows(column(head_row(kind), 0x1_00_00_00), third)
}
