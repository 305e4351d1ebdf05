// Both ways over a blob's records.
ghost use Rattle.std.specs.Prelude.{length, []};
ghost use Rattle.onepass.specs.Forth.{Begins};
ghost use Rattle.onepass.specs.Pass.{SureOf};
ghost use Rattle.paper.specs.declared.Order.TheVariants.{LowFirst};
ghost use Rattle.paper.specs.rules.Header.{strings_in};

use crate::back::back;
use crate::forth::{Ran, forth};
use paper::Order;
use scan::clear;
use views::strings_in;

// A table that is good for sure, or one of which phases 1 to 3 have nothing to say, with its count of types; or nothing is told. An enum of its
// own: Unsure is no refusal, it leaves the table to the general way.
#[derive(Clone, Copy)]
pub enum Sure {
    Good(u32),
    Read(u32),
    Unsure,
}

// Forth, and back where types are left open. The order is a constant here, so that every word is read without asking for it.
fn both_ways(b: &[u8], end: u32, index: &mut [u32], work: &mut [u32]) -> Sure
    requires { Begins LowFirst [] (strings_in b.now) b.now end index.old work.old }
    ensures { SureOf result b.now (length index.old) (length work.old) index.new }
{
    match forth(Order::LowFirst, b, end, &b[..0], strings_in(b), index, work) {
        Ran::Untold => Sure::Unsure,
        Ran::Settled(n) => Sure::Good(n),
        Ran::Open(n) => {
            if back(Order::LowFirst, b, index, n, work) {
                return Sure::Good(n);
            }
            Sure::Read(n)
        }
    }
}

// A table that is good for sure, or read to its end: its count of types, with the places of its records in the index. Of any other nothing is
// told, and both slices may hold anything; so of a big-endian one.
pub fn pass(b: &[u8], index: &mut [u32], work: &mut [u32]) -> Sure
    ensures { SureOf result b.now (length index.old) (length work.old) index.new }
{
    match words::order_of(b) {
        Order::HighFirst => Sure::Unsure,
        Order::LowFirst => match header::read(b) {
            Err(_) => Sure::Unsure,
            Ok(s) => {
                clear(index);
                clear(work);
                both_ways(b, 24 + s.types, index, work)
            }
        },
    }
}
