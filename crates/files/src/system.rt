// The system's files by names that are bytes. It takes a name as text, so one that is no text is refused as a disk would
// refuse it that holds no such names.
use std::fs;
use std::fs::{File, OpenOptions};
use std::io::{Error, Result};

const EILSEQ: i32 = 84;

fn text(name: &[u8]) -> Result<&str> {
    match std::str::from_utf8(name) {
        Ok(s) => Ok(s),
        Err(_) => Err(Error::from_raw_os_error(EILSEQ)),
    }
}

pub(crate) fn open_read(rt: &HostRuntime, name: &[u8]) -> Result<File> {
    File::open(rt, text(name)?)
}

// Its bytes are left as they are.
pub(crate) fn open_update(rt: &HostRuntime, name: &[u8]) -> Result<File> {
    OpenOptions::new()
        .read(true)
        .write(true)
        .open(rt, text(name)?)
}

// A file that is new, and has the mode that the umask gives.
pub(crate) fn create(rt: &HostRuntime, name: &[u8]) -> Result<File> {
    OpenOptions::new()
        .write(true)
        .create_new(true)
        .open(rt, text(name)?)
}

pub(crate) fn rename(rt: &HostRuntime, from: &[u8], to: &[u8]) -> Result<()> {
    fs::rename(rt, text(from)?, text(to)?)
}

// A file that cannot be removed stays: what has failed before is told.
pub(crate) fn unlink(rt: &HostRuntime, name: &[u8]) {
    if let Ok(s) = text(name) {
        let _ = fs::remove_file(rt, s);
    }
}
