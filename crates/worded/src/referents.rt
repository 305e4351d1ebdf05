// What stands at a number that a word refers to.
use crate::Look;
use kindrows::INT;
use lines::Out;
use paper::{Order, Place, TypeNo};
use rows::{info_of, kind_of};
use titles::{put_record, put_size};
use views::{View, record_of};

// An INT's offset and width, which the layout asks for.
fn put_int_bits(out: &mut Out, order: Order, r: &[u8]) {
    if kind_of(info_of(order, r)) != INT {
        return;
    }
    let w = words::read(order, r, Place(12));
    out.put_with(b", offset ", (w / 65536 % 256) as u64);
    out.put_with(b", width ", (w % 256) as u64);
}

// The size of the type whose record is `r`, where the rule of the report asks for sizes.
fn put_referent_size(out: &mut Out, blob: &[u8], index: &[u32], look: Look, t: u32, r: &[u8]) {
    if look.number != 15 {
        return;
    }
    out.put(b", ");
    put_size(out, sizes::size(blob, index, TypeNo(t)));
    put_int_bits(out, words::order_of(blob), r);
}

// " (KIND name)", or that nothing stands there. Before the records are counted, at reports 6 to 8, nothing is known.
pub(crate) fn put_referent(out: &mut Out, blob: &[u8], index: &[u32], look: Look, t: u32) {
    if look.number < 10 {
        return;
    }
    if t == 0 {
        out.put(b" (void)");
        return;
    }
    if look.n < t {
        out.put(b" (not there)");
        return;
    }
    out.put(b" (");
    let view = View {
        n: look.n,
        order: words::order_of(blob),
        before: 0,
    };
    let r = record_of(&blob[..0], blob, index, view, TypeNo(t));
    put_record(out, blob, r);
    put_referent_size(out, blob, index, look, t, r);
    out.put(b")");
}
