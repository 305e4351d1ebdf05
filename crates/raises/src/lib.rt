// A type number and a name offset raised, as a join raises those of its second table. The two cannot be exchanged: they are different types.
#![tactic(auto)]

ghost use Rattle.std.specs.Prelude.{◌≡◌, ◌%◌};
ghost use Rattle.paper.specs.rules.Rename.{raise};

use paper::{NameOff, TypeNo};

// The number raised, in 32 bits; 0 stands.
fn raised(w: u32, by: u32) -> u32
    ensures { result ≡ raise by w % 4294967296 }
{
    if w == 0 {
        return 0;
    }
    std::num::wrapping_add_u32(w, by)
}

// A type number raised by so many types; void stands.
pub fn raise_type(t: TypeNo, by: TypeNo) -> TypeNo
    ensures { result.0 ≡ raise by.0 t.0 % 4294967296 }
{
    TypeNo(raised(t.0, by.0))
}

// A name offset raised by so many bytes; offset 0 stands.
pub fn raise_name(n: NameOff, by: NameOff) -> NameOff
    ensures { result.0 ≡ raise by.0 n.0 % 4294967296 }
{
    NameOff(raised(n.0, by.0))
}
