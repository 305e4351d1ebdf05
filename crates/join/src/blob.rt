// The joined blob is written: "the header, the first's records, the second's as demand 3 raises them, the first's strings,
// the second's strings without their first byte". Its words are in the order of both.
ghost use Rattle.std.specs.Prelude.{◌≡◌, length};
ghost use Rattle.join.specs.Joins.{WriteAsk};
ghost use Rattle.paper.specs.rules.Join.{joined_bytes};

use paper::{NameOff, Place, TypeNo};
use shift::{Shift, put_header, raise_records};

// Into an output of just that length, each part behind the one before.
pub(crate) fn write(a: &[u8], b: &[u8], n: u32, m: u32, out: &mut [u8])
    requires { WriteAsk a.now b.now n m (length out.old) }
    ensures { out.new ≡ joined_bytes a.now b.now }
{
    let order = words::order_of(a);
    let first = words::blob_word(a, Place(12));
    let first_strings = words::blob_word(a, Place(20));
    let second = words::blob_word(b, Place(12));
    let second_strings = words::blob_word(b, Place(20));
    let types = first + second;
    let strings = first_strings + (second_strings - 1);
    put_header(order, a, types, strings, out);
    let end = 24 + first as usize;
    words::lay(out, 24, &a[24..end]);
    let names = first_strings - 1;
    let by = Shift {
        order,
        types: TypeNo(n),
        names: NameOff(names),
    };
    raise_records(&b[24..], m, by, &mut out[end..]);
    let behind = 24 + types as usize;
    words::lay(out, behind, &a[end..]);
    let skip = 25 + second as usize;
    let last = behind + first_strings as usize;
    words::lay(out, last, &b[skip..]);
}
