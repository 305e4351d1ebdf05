// The running totals of types and bytes, as a list's fields are taken: "handed back at first and later changed in place".
#![tactic(auto)]

ghost use Rattle.std.specs.Prelude.{◌≡◌};
ghost use Rattle.totals.specs.Running.{later};

use std::num::wrapping_add_usize;

#[derive(Clone, Copy)]
pub struct Totals {
    pub types: usize,
    pub bytes: usize,
}

impl Totals {
    // Handed back: one type more, and so many bytes. In 64 bits, as numbers of this width are added.
    pub fn with(self, bytes: usize) -> Totals
        ensures { result ≡ later self bytes }
    {
        Totals {
            types: wrapping_add_usize(self.types, 1),
            bytes: wrapping_add_usize(self.bytes, bytes),
        }
    }
}

// Changed in place: what the method hands back is laid over what it was asked of.
pub fn take(t: &mut Totals, bytes: usize)
    ensures { t.new ≡ later t.old bytes }
{
    *t = t.with(bytes);
}

// For whoever holds the totals by value: a copy is lent to `take` and handed back, so that a caller has no reference to prove.
pub fn after(t: Totals, bytes: usize) -> Totals
    ensures { result ≡ later t bytes }
{
    let mut lent = t;
    take(&mut lent, bytes);
    lent
}
