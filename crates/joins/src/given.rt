// The tables of a call are arguments: a name is fetched where it is needed, so that no more than one waits.
use files::arg;
use lines::Out;
use texts::first_of;

// As many tables as one call joins.
pub const TABLES: u32 = 16;

// The number of the argument that is the verb, and how many tables stand behind it. Behind them stands OUT.
#[derive(Clone, Copy)]
pub struct Given {
    pub verb: u32,
    pub count: u32,
}

// The argument that names a table, counted from 0.
pub fn word_of(given: Given, k: u32) -> usize {
    (given.verb as usize) + 1 + (k as usize)
}

// The argument that names OUT.
pub fn out_of(given: Given) -> usize {
    word_of(given, given.count)
}

// A file's name, by its argument.
pub(crate) fn put_word(rt: &HostRuntime, out: &mut Out, i: usize) {
    let mut s = [0u8; 4096];
    let n = arg(rt, i, &mut s);
    out.put_file(first_of(&s, n));
}
