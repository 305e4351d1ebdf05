// A table that was made of others, and has passed.
use files::{Status, end, save};
use lines::{Out, STDOUT_FILENO};
use paper::FULL_PLACES;
use titles::put_many;

// How many types a table has that has passed, and their places.
pub fn count(blob: &[u8], index: &mut [u32]) -> u32 {
    match scan::scan(blob, index, FULL_PLACES) {
        Ok(n) => n,
        Err(_) => 0,
    }
}

// "FILE: joined, 158 bytes, 4 types"
pub fn put_made(out: &mut Out, file: &[u8], what: &[u8], len: u64, n: u32) {
    out.put_file(file);
    out.put(what);
    out.put_with(b", ", len);
    out.put(b" bytes, ");
    put_many(out, n as u64, b" type\n", b" types\n");
}

// Bytes are saved under a name, and the answer says what they are and how large.
pub fn saved(rt: &HostRuntime, name: &[u8], what: &[u8], s: &[u8], n: u32) -> Status {
    if !save(rt, name, s) {
        return Status::Failed;
    }
    let mut out = Out::to(STDOUT_FILENO);
    put_made(&mut out, name, what, s.len() as u64, n);
    end(&mut out, Status::Done)
}
