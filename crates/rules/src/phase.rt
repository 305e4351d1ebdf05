// Phase 3 of one record: the smallest of reports 10, 11 and 12 that is due.
ghost use Rattle.std.specs.Prelude.{◌≡◌};
ghost use Rattle.paper.specs.rules.Choice.{first_due};
ghost use Rattle.paper.specs.terms.Reading.{record_in};
ghost use Rattle.rules.specs.Phase.{due_as_paper, rules_of};

use crate::quick::quiet;
use heads::head_ok;
use naming::names_ok;
use paper::Order;
use tails::tail_ok;

// What may be due of a record in phase 3: 10, 11 or 12.
#[derive(Clone, Copy)]
pub enum Due {
    Head,
    Named,
    Tail,
}

// "later, the smallest type, then the smallest number": of one type, the smallest number. Of most records nothing is due, which few words tell.
pub fn phase3<'a>(order: Order, bytes: &[u8], base: &'a [u8], strings: &'a [u8]) -> Option<Due>
    ensures { due_as_paper result ≡ first_due (rules_of base.now strings.now (record_in order bytes.now)) }
{
    if quiet(order, bytes, base, strings) {
        return None;
    }
    if !head_ok(order, bytes) {
        return Some(Due::Head);
    }
    if !names_ok(order, bytes, base, strings) {
        return Some(Due::Named);
    }
    if !tail_ok(order, bytes) {
        return Some(Due::Tail);
    }
    None
}
