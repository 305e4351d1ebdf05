// Why something failed, on standard error: in words of ours what it was, and in the system's why.
use crate::saves::append;
use lines::STDERR_FILENO;
use quotes::file_text;
use std::fmt;
use std::fmt::Write;
use std::io::Error;
use texts::first_of;

// The system's words.
#[derive(Drop)]
struct Said {
    bytes: [u8; 128],
    n: usize,
}

impl fmt::Write for Said {
    fn write_str(&mut self, s: &str) -> fmt::Result {
        self.n = append(&mut self.bytes, self.n, s.as_bytes());
        Ok(())
    }
}

// Where the number of an error begins, which stands behind its words.
fn words_end(s: &[u8]) -> usize {
    for i in 0..s.len() {
        if s[i..].starts_with(b" (os error ") {
            return i;
        }
    }
    s.len()
}

// "scrieve: WHAT: why".
pub fn fail_text(what: &[u8], why: Error) {
    let mut said = Said {
        bytes: [0; 128],
        n: 0,
    };
    let _ = write!(said, "{why}");
    let words = first_of(&said.bytes, said.n);
    io::write_all(STDERR_FILENO, b"scrieve: ");
    io::write_all(STDERR_FILENO, what);
    io::write_all(STDERR_FILENO, b": ");
    io::write_all(STDERR_FILENO, first_of(words, words_end(words)));
    io::write_all(STDERR_FILENO, b"\n");
}

// The same of a file. A name that is longer than any path is left out.
pub fn fail(name: &[u8], why: Error) {
    let mut space = [0u8; 16386];
    let n = file_text(name, &mut space);
    fail_text(&space[..n], why);
}
