// Kinds that a rule takes together.
ghost use Rattle.std.specs.Prelude.{◌≡◌};
ghost use Rattle.paper.specs.rules.Span.{is_alias};

use kindrows::{RESTRICT, TYPE_TAG, TYPEDEF};

// TYPEDEF, VOLATILE, CONST, RESTRICT or TYPE_TAG.
pub fn is_alias(kind: u32) -> bool
    ensures { result ≡ is_alias kind }
{
    if kind == TYPE_TAG {
        return true;
    }
    if kind < TYPEDEF {
        return false;
    }
    kind <= RESTRICT
}
