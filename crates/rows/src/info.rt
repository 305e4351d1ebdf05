// The parts of an info word: "bits 0 to 15 vlen, 24 to 28 kind, 31 kind_flag".
ghost use Rattle.std.specs.Prelude.{◌≡◌};
ghost use Rattle.paper.specs.rules.Table.{flag_in, kind_in, vlen_in};
ghost use Rattle.paper.specs.rules.Walk.{known};

use kindrows::{ENUM64, INT};

// The kind of an info word.
pub fn kind_of(info: u32) -> u32
    ensures { result ≡ kind_in info }
{
    info / 16777216 % 32
}

// Its count of entries, or a function's linkage.
pub fn vlen_of(info: u32) -> u32
    ensures { result ≡ vlen_in info }
{
    info % 65536
}

// Its kind_flag.
pub fn flag_of(info: u32) -> u32
    ensures { result ≡ flag_in info }
{
    info / 2147483648
}

// A kind of 1 to 19.
pub fn is_known(kind: u32) -> bool
    ensures { result ≡ known kind }
{
    INT <= kind && kind <= ENUM64
}
