// A wrong call: which word is wrong and why, then the usage.
#![tactic(auto)]

use files::{Status, arg, fail_output};
use lines::{Out, STDERR_FILENO, STDOUT_FILENO};
use texts::{first_of, line};

// Why a word is wrong, in the order of the lines that say so.
#[derive(Clone, Copy)]
pub enum Wrong {
    Unknown,
    TooFew,
    TooMany,
    NoType,
    NoOffset,
    NoOut,
    TwoDashes,
    NoTypeName,
    TwoInputs,
    NoEach,
    NoDigits,
    OddDigits,
    NoBase,
    NotBased,
    TwoBases,
    FewTables,
    ManyTables,
    OneInput,
    NoOuts,
    OneOut,
    NoCount,
    NoLength,
    TwoTables,
    TwoBeside,
    NoShow,
    Untold, // behind the last line: no reason is told
}

fn usage(fd: i32) -> bool {
    io::write_all(
        fd,
        b"usage: scrieve check FILE          is the table accepted; else the report, and what it means\n\
\x20      scrieve show FILE [TYPE]    a line for each type, or for one, by number or by name: size, members\n\
\x20      scrieve size FILE TYPE      the exact size of a type\n\
\x20      scrieve name FILE OFFSET    the string at an offset\n\
\x20      scrieve join A B [C ..] OUT\n\
\x20                                  two to sixteen tables in one; OUT changes only when all of it is written\n\
\x20      scrieve cut JOINED COUNT LENGTH OUT1 OUT2\n\
\x20      scrieve cut JOINED --like FIRST OUT1 OUT2\n\
\x20                                  a joined table in its two parts, of which the first has so many types and bytes of strings, or\n\
\x20                                  as many as FIRST; OUT1 and OUT2 change only when all of both is written\n\
\x20      scrieve list TABLE OUT      the table as a list of tagged fields, which can be kept\n\
\x20      scrieve make LIST OUT       and the table of such a list; OUT changes only when all of it is written\n\
\x20      scrieve list --text TABLE OUT\n\
\x20      scrieve make --text TEXT OUT\n\
\x20                                  the same with a text, a line for each type, that can be read and edited\n\
\x20      scrieve ext TABLE SECTION [--show]\n\
\x20                                  is the section .BTF.ext accepted beside its table; what it holds, with --show every record\n\
\x20      scrieve read TABLE TYPE RECORD [--each]\n\
\x20      scrieve read TABLE TYPE --hex DIGITS\n\
\x20                                  a record of a struct or union, by number or by name: each member's bits, bytes and value;\n\
\x20                                  RECORD is a file, with --each of one record behind another; DIGITS are the bytes themselves\n\
\x20      scrieve check, show, size, name or read .. --base BASE\n\
\x20                                  the same of a table that leans on a base: its numbers and name offsets go on from those of BASE\n\
\x20      scrieve help                this text; -h and --help too\n\
\x20      scrieve version             the commit, the toolchain, the requests that have landed\n\
A dash for FILE, A, B, C, JOINED, FIRST, TABLE, LIST, TEXT, SECTION, RECORD or BASE is standard input.\n\
Status: 0 accepted or done, 1 refused, 2 a wrong call, or a file that cannot be read or written.\n",
    )
}

pub fn help() -> Status {
    if usage(STDOUT_FILENO) {
        return Status::Done;
    }
    fail_output()
}

// "scrieve: WORD: why", and the usage.
fn put_wrong(word: &[u8], why: Wrong) {
    let whys = b"there is no such verb\n\
        too few words behind it\n\
        too many words behind it\n\
        TYPE is a decimal number of 32 bits\n\
        OFFSET is a decimal number of 32 bits\n\
        OUT is the name of a file\n\
        A and B cannot both be standard input\n\
        TYPE is a decimal number of 32 bits, or a name\n\
        TABLE and RECORD cannot both be standard input\n\
        behind RECORD there may be --each, and nothing else\n\
        DIGITS are hexadecimal digits and blanks\n\
        DIGITS are two for each byte, and one is left\n\
        behind it stands BASE, the name of one file, and nothing else\n\
        a base is for check, show, size, name and read\n\
        BASE and another file cannot both be standard input\n\
        two tables at least are joined, and OUT stands behind them\n\
        sixteen tables at most are joined, and OUT stands behind them\n\
        only one of the tables can be standard input\n\
        OUT1 and OUT2 are names of files\n\
        OUT1 and OUT2 are two files\n\
        COUNT is a decimal number of 32 bits, or --like\n\
        LENGTH is a decimal number of 32 bits\n\
        JOINED and FIRST cannot both be standard input\n\
        TABLE and SECTION cannot both be standard input\n\
        behind SECTION there may be --show, and nothing else\n";
    let mut out = Out::to(STDERR_FILENO);
    out.put(b"scrieve: ");
    out.put_file(word);
    out.put(b": ");
    out.put(line(whys, why as u32));
    out.put(b"\n");
    out.flush();
}

// The argument of this number is wrong.
pub fn wrong_at(rt: &HostRuntime, i: usize, why: Wrong) -> Status {
    let mut s = [0u8; 4096];
    let n = arg(rt, i, &mut s);
    put_wrong(first_of(&s, n), why);
    usage(STDERR_FILENO);
    Status::Failed
}

// The call has no words.
pub fn no_words() -> Status {
    io::write_all(STDERR_FILENO, b"scrieve: there is no verb\n");
    usage(STDERR_FILENO);
    Status::Failed
}
