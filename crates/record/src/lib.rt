// Reading the records themselves: a member of a record by a table that is checked here. Who reads many records checks once, asks `members::span_of` once for a
// member and `values::value_of` for each record: proofs/Demands.antt has the law that these give the same.
#![tactic(auto)]

ghost use Rattle.std.specs.Prelude.{length};
ghost use Rattle.record.specs.Gives.{MemberOf};

use members::span_of;
use paper::TypeNo;
use values::{MemberValue, Valued, value_of};

// Member `m`, counted from 0, of type `t` in a record's bytes: its span and its value, or a refusal. The slices end as the check leaves them.
pub fn member(
    b: &[u8],
    index: &mut [u32],
    work: &mut [u32],
    t: TypeNo,
    m: u32,
    s: &[u8],
) -> MemberValue
    ensures { MemberOf result b.now (length index.old) (length work.old) t.0 m s.now index.new work.new }
{
    match gate::check(b, index, work) {
        Err(r) => MemberValue {
            value: Valued::TableRefused(r),
            from: 0,
            bits: 0,
            bytes: [0u8; 16],
        },
        Ok(_) => value_of(span_of(b, index, t, m), s),
    }
}
