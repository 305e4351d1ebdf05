// The paper's three kinds of number, and every answer that an entry point can give.
// What each case is in the paper's numbers stands in specs/Answer.antt.

// The limits, as specs/rules/Limits.antt has them: the types and the bytes of a table, and the places of a slice of full size.
pub const TYPE_LIMIT: u32 = 16384;

pub const BYTE_LIMIT: usize = 262144;

pub const FULL_PLACES: usize = 16385;

// The number of a type: 0 is void, the records are numbered from 1.
#[derive(Clone, Copy)]
pub struct TypeNo(pub u32);

// An offset into the string section.
#[derive(Clone, Copy)]
pub struct NameOff(pub u32);

// The place of a byte in a blob.
#[derive(Clone, Copy)]
pub struct Place(pub u32);

// A part of a blob: where it begins, and how many bytes it has.
#[derive(Clone, Copy)]
pub struct Part {
    pub start: Place,
    pub length: u32,
}

// How the four bytes of a word stand: the low byte first, or the high.
#[derive(Clone, Copy, PartialEq, Eq)]
pub enum Order {
    LowFirst,
    HighFirst,
}

// The gate's reports 1 to 15, in the paper's order: the type that each names, and where its record stands in the blob.
#[derive(Clone, Copy)]
pub enum Report {
    Length,
    Opening,
    HeaderLength,
    Sections,
    Strings,
    RecordCut(TypeNo, Place),
    UnknownKind(TypeNo, Place),
    ManyTypes(Place),
    SlicesShort,
    Head(TypeNo, Place),
    Named(TypeNo, Place),
    Tail(TypeNo, Place),
    Reference(TypeNo, Place),
    Endless(TypeNo, Place),
    Layout(TypeNo, Place),
}

// What the size question answers: the exact size, no size, overflow, 21 and 22. An enum of its own: no size and overflow are answers and refuse nothing.
#[derive(Clone, Copy)]
pub enum Sized {
    Exact(u32),
    NoSize,
    Overflow,
    Lost,
    TooFar,
}

// Why two tables are not joined: 16, 17, 24, 18, 19 and 20.
#[derive(Clone, Copy)]
pub enum JoinError {
    FirstRefused(Report),
    SecondRefused(Report),
    OrdersDiffer,
    TooMany,
    TooLong,
    OutputShort,
}

// Why a table that leans on a base is refused: 25 with the base's report, 26, or a report of its own.
#[derive(Clone, Copy)]
pub enum LeanError {
    BaseRefused(Report),
    OrdersDiffer,
    Refused(Report),
}
