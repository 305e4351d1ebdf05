// How a call ends, which the launcher's status tells.
use crate::failures::fail_text;
use lines::Out;
use std::io::ErrorKind;

// How a call ends: as asked, with a refusal, as a call that is wrong or whose files cannot be read or written, or as one whose output
// nobody reads any more.
#[derive(Clone, Copy)]
pub enum Status {
    Done,
    Refused,
    Failed,
    Gone,
}

// Standard output, on which the system's last call has failed. Of a reader that has gone nothing is said.
pub fn fail_output() -> Status {
    let why = std_io::io::last_error();
    if let ErrorKind::BrokenPipe = why.kind() {
        return Status::Gone;
    }
    fail_text(b"standard output", why);
    Status::Failed
}

// What waits is written. Standard error says so where that cannot be done.
pub fn end(out: &mut Out, s: Status) -> Status {
    out.flush();
    if out.is_whole {
        return s;
    }
    fail_output()
}
