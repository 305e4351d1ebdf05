// Which type a word asks for: by a number any, by a name the only struct or union that has it.
use bases::record_of;
use files::Status;
use lines::{Out, STDERR_FILENO};
use listing::is_named;
use members::is_struct;
use rows::{info_of, kind_of};
use titles::put_type;

pub(crate) fn is_record(blob: &[u8], index: &[u32], t: u32) -> bool {
    is_struct(kind_of(info_of(words::order_of(blob), record_of(blob, index, t))))
}

fn has_name(blob: &[u8], index: &[u32], t: u32, name: &[u8]) -> bool {
    if !is_record(blob, index, t) {
        return false;
    }
    is_named(blob, index, t, name)
}

// The struct or union of a table of so many types that has a name; where it is not one, how many have it.
pub(crate) fn by_name(blob: &[u8], index: &[u32], n: u32, name: &[u8]) -> Result<u32, u32> {
    let mut count: u32 = 0;
    let mut last: u32 = 0;
    for t in 1..=n {
        if has_name(blob, index, t, name) {
            count = std::num::wrapping_add_u32(count, 1);
            last = t;
        }
    }
    if count == 1 { Ok(last) } else { Err(count) }
}

// A line for each struct and union that has a name.
fn put_named(out: &mut Out, blob: &[u8], index: &[u32], n: u32, name: &[u8]) {
    for t in 1..=n {
        if has_name(blob, index, t, name) {
            out.put(b"    ");
            put_type(out, blob, index, t);
            out.put(b"\n");
        }
    }
}

// So many structs and unions have the name that is asked for, and not one: a wrong call.
pub(crate) fn unclear(
    file: &[u8],
    blob: &[u8],
    index: &[u32],
    n: u32,
    name: &[u8],
    count: u32,
) -> Status {
    let mut out = Out::to(STDERR_FILENO);
    out.put(b"scrieve: ");
    out.put_file(file);
    if count == 0 {
        out.put(b": no struct or union has the name ");
        out.put_name(name);
        out.put(b"\n");
        out.flush();
        return Status::Failed;
    }
    out.put(b": ");
    out.put_number(count);
    out.put(b" types have the name ");
    out.put_name(name);
    out.put(b", ask by number:\n");
    put_named(&mut out, blob, index, n, name);
    out.flush();
    Status::Failed
}
