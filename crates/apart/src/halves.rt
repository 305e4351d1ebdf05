// What a cut gives: two files, or that there is no such cut.
use files::{Modes, Status, end, save_both};
use lines::{Out, STDOUT_FILENO};
use tables::put_made;
use titles::put_many;

// The names of the two files, and their modes.
#[derive(Clone, Copy)]
pub(crate) struct Outs<'a> {
    pub(crate) one: &'a [u8],
    pub(crate) two: &'a [u8],
    pub(crate) modes: Modes,
}

// A part and how many types it has.
#[derive(Clone, Copy)]
pub(crate) struct Part<'a> {
    pub(crate) bytes: &'a [u8],
    pub(crate) n: u32,
}

// Both parts are saved, and the answer says how large they are.
pub(crate) fn saved(rt: &HostRuntime, outs: Outs, first: Part, second: Part) -> Status {
    let modes = outs.modes;
    if !save_both(rt, outs.one, first.bytes, outs.two, second.bytes, modes) {
        return Status::Failed;
    }
    let mut out = Out::to(STDOUT_FILENO);
    let len = first.bytes.len() as u64;
    put_made(&mut out, outs.one, b": first part", len, first.n);
    let len = second.bytes.len() as u64;
    put_made(&mut out, outs.two, b": second part", len, second.n);
    end(&mut out, Status::Done)
}

// No two tables join to the one that is asked of, the first of so many types and bytes of strings.
pub(crate) fn no_cut(file: &[u8], types: u32, strings: u32) -> Status {
    let mut out = Out::to(STDOUT_FILENO);
    out.put_file(file);
    out.put(b": refused, report 60: no two tables of these numbers join to it");
    out.put(b": ");
    put_many(&mut out, types as u64, b" type", b" types");
    out.put(b" and ");
    put_many(&mut out, strings as u64, b" byte", b" bytes");
    out.put(b" of strings in the first\n");
    end(&mut out, Status::Refused)
}

// Outputs of full size are never too short.
pub(crate) fn short(file: &[u8]) -> Status {
    let mut out = Out::to(STDOUT_FILENO);
    out.put_file(file);
    out.put(b": refused, report 61: an output is shorter than its table\n");
    end(&mut out, Status::Refused)
}
