// The .BTF.ext section beside a table (order 8): definitions (specs/) and their laws (proofs/). There is no code here but the sorts and the answers' cases.
use paper::Report;

// The sorts of record, in the order of their parts.
#[derive(Clone, Copy)]
pub enum Sort {
    Function,
    Line,
    Relocation,
}

// What a word of a record is: a number that nothing is asked of, a name offset, a type that is a FUNC, or any type.
#[derive(Clone, Copy)]
pub enum Role {
    Plain,
    Name,
    FuncType,
    AnyType,
}

// What is wrong with a section beside an accepted table: 41 to 48.
#[derive(Clone, Copy)]
pub enum Fault {
    Length,
    Opening,
    HeaderLength,
    Parts,
    RecordSize,
    Group,
    Named,
    Typed,
}

// Why a section is refused: 40 with the table's report, or 41 to 48.
#[derive(Clone, Copy)]
pub enum ExtError {
    TableRefused(Report),
    Refused(Fault),
}
