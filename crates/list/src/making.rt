// The table of a list that is known to be one, laid as its blob.
ghost use Rattle.std.specs.Prelude.{◌≡◌, ◌≤◌, length};
ghost use Rattle.list.specs.Making.{MakeAsk, blob_in, front_of};
ghost use Rattle.lists.specs.List.{read_list};
ghost use Rattle.paper.specs.terms.Put.{put};

use crate::bodies::{fields_len, gather_body};
use paper::{Order, Place};
use rows::tail_words;
use shift::put_header;

// The header: its twelve bytes that no length changes, then the lengths.
fn put_front(order: Order, types: u32, strings: u32, out: &mut [u8])
    requires { 24 ≤ length out.old }
    ensures { out.new ≡ put out.old 0 (front_of order types strings) }
{
    match order {
        Order::LowFirst => put_header(
            order,
            &[0x9f, 0xeb, 1, 0, 24, 0, 0, 0, 0, 0, 0, 0],
            types,
            strings,
            out,
        ),
        Order::HighFirst => put_header(
            order,
            &[0xeb, 0x9f, 1, 0, 0, 0, 0, 24, 0, 0, 0, 0],
            types,
            strings,
            out,
        ),
    }
}

// The strings and the records, into an output of just the blob's length.
pub(crate) fn put_table(s: &[u8], order: Order, types: u32, strings: u32, out: &mut [u8])
    requires { MakeAsk s.now order types strings (length out.old) }
    ensures { out.new ≡ blob_in (read_list s.now) }
{
    put_front(order, types, strings, out);
    let behind = 24 + types as usize;
    gather_body(s, 0, strings as usize, out, behind);
    let mut p = fields_len(strings as usize);
    let mut q = 24;
    // A while: each record says where the next begins, so there is no count to go over.
    while p < s.len() {
        let from = p + 3;
        let info = words::read(order, &s[from..], Place(4));
        let size = 12 + 4 * tail_words(info) as usize;
        gather_body(s, p, size, out, q);
        q += size;
        p += fields_len(size);
    }
}
