// A table is written under another name beside its own, and renamed when all of it is on the disk: whatever fails, what
// stood under its name before stands there still.
use crate::failures::fail;
use crate::system::{create, open_read, open_update, rename, unlink};
use paper::{Order, Place};
use std::fs::{File, Permissions};
use std::io::{ErrorKind, Result, Write};
use std::os::unix::fs::PermissionsExt;
use std::random::RandomSource;
use texts::first_of;
use words::lay;

// Room for the other name: the longest argument, and what stands behind it.
pub(crate) const OTHER: usize = 4128;

// Four random bytes; zeros where the system has none.
fn random(rt: &HostRuntime) -> u32 {
    let mut s = [0u8; 4];
    let _ = rt.fill_bytes(&mut s);
    words::read(Order::LowFirst, &s, Place(0))
}

// A piece behind the first bytes, where there is room for it; where it ends is answered.
pub fn append(to: &mut [u8], at: usize, s: &[u8]) -> usize {
    if to.len() < at {
        return at;
    }
    if to.len() - at < s.len() {
        return at;
    }
    lay(to, at, s);
    at + s.len()
}

// The other name: a dot and eight random digits behind the name. A new file under a name of our own, and not one of
// mkstemp's, has the mode that the caller's umask gives.
fn other_name(rt: &HostRuntime, name: &[u8], other: &mut [u8]) -> usize {
    let mut digits = [0u8; 16];
    let k = io::hex(random(rt) as u64, 8, &mut digits);
    let n = append(other, 0, name);
    let n = append(other, n, b".");
    append(other, n, &digits[..k])
}

// A new file has the mode that is asked for, else the one that the umask has given it.
fn set_mode(file: &File, mode: Option<u32>) -> Result<()> {
    match mode {
        Some(bits) => file.set_permissions(Permissions::from_mode(bits)),
        None => Ok(()),
    }
}

// All bytes are written, and on the disk.
fn fill(file: &mut File, s: &[u8], mode: Option<u32>) -> Result<()> {
    set_mode(file, mode)?;
    file.write_all(s)?;
    file.sync_all()
}

// The file of the other name is written and closed.
fn write_other(mut file: File, s: &[u8], mode: Option<u32>, name: &[u8]) -> bool {
    match fill(&mut file, s, mode) {
        Ok(()) => true,
        Err(why) => {
            fail(name, why);
            false
        }
    }
}

// The file of the other name is there and whole. Where anything fails it is removed.
fn make_other(rt: &HostRuntime, other: &[u8], name: &[u8], s: &[u8], mode: Option<u32>) -> bool {
    match create(rt, other) {
        Ok(file) => {
            if write_other(file, s, mode, name) {
                return true;
            }
            unlink(rt, other);
            false
        }
        Err(why) => {
            fail(name, why);
            false
        }
    }
}

// The file of the other name takes the name; else it is removed.
pub(crate) fn take_name(rt: &HostRuntime, other: &[u8], name: &[u8]) -> bool {
    match rename(rt, other, name) {
        Ok(()) => true,
        Err(why) => {
            fail(name, why);
            unlink(rt, other);
            false
        }
    }
}

// What was written to a file is on the disk; else standard error says why not.
fn is_synced(file: &File, name: &[u8]) -> bool {
    match file.sync_all() {
        Ok(()) => true,
        Err(why) => {
            fail(name, why);
            false
        }
    }
}

// What the directory has of its names is on the disk too. One that cannot be opened is left to the system.
fn sync(rt: &HostRuntime, directory: &[u8]) -> bool {
    match open_read(rt, directory) {
        Ok(file) => is_synced(&file, directory),
        Err(_) => true,
    }
}

pub(crate) fn sync_directory(rt: &HostRuntime, name: &[u8]) -> bool {
    match name.iter().rposition(|b| *b == b'/') {
        Some(slash) => sync(rt, &name[..=slash]),
        None => sync(rt, b"."),
    }
}

// A folder, a device or a pipe is no file that another can take the place of; nothing of the latter two can be brought to a disk.
fn is_file(rt: &HostRuntime, name: &[u8]) -> bool {
    match open_update(rt, name) {
        Ok(file) => is_synced(&file, name),
        Err(why) => {
            if let ErrorKind::IsADirectory = why.kind() {
                fail(name, why);
                return false;
            }
            true // there is none, or the system will say what is wrong with it
        }
    }
}

// The first step: the bytes stand on the disk under another name, which is put into the lent bytes. Its length is answered; where there
// is none, standard error says why not.
pub(crate) fn set_aside(
    rt: &HostRuntime,
    name: &[u8],
    s: &[u8],
    mode: Option<u32>,
    other: &mut [u8],
) -> Option<usize> {
    if !is_file(rt, name) {
        return None;
    }
    let n = other_name(rt, name, other);
    if !make_other(rt, first_of(other, n), name, s, mode) {
        return None;
    }
    Some(n)
}

// The bytes stand under the name, and on the disk; else standard error says why not.
pub fn save(rt: &HostRuntime, name: &[u8], s: &[u8]) -> bool {
    let mut other = [0u8; OTHER];
    let Some(n) = set_aside(rt, name, s, None, &mut other) else {
        return false;
    };
    take_name(rt, first_of(&other, n), name) && sync_directory(rt, name)
}
