// A member's span from a blob and an index alone: read once for a type, and used for every record. It trusts nobody, as the size question does.
#![tactic(auto)]

mod found; // what is said of a member of a type's record
mod shown; // what an index shows: how many types, and which have no place

ghost use Rattle.std.specs.Prelude.{◌≡◌};
ghost use Rattle.members.specs.Looked.{sought_at};
ghost use Rattle.values.specs.Given.{found_as_paper};

pub use found::{is_struct, numbered};
use found::{member_in, no_span};
use paper::{Order, TypeNo};
use shown::{placeless, places};
use values::{MemberSpan, Sort};
use views::View;

// A member of a type, by its number from 0: where its bits lie in a record, or why it has no value. No more records are read than the
// index has places.
pub fn span_of(b: &[u8], index: &[u32], t: TypeNo, m: u32) -> MemberSpan
    ensures { found_as_paper result ≡ sought_at b.now index.now t.0 m }
{
    let order = words::order_of(b);
    match order {
        Order::HighFirst => return no_span(Sort::HighFirst, 0),
        Order::LowFirst => {}
    }
    if placeless(index, t) {
        return no_span(Sort::NoType, 0);
    }
    let n = places(index);
    member_in(
        &b[..0],
        b,
        index,
        View {
            n,
            order,
            before: 0,
        },
        t,
        m,
    )
}
