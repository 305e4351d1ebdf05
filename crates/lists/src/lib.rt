// A table written out as the house list, and read back: definitions (specs/List.antt) and their laws. There is no code here but the answers' cases.
use paper::Report;

// Why a table is not written out as a list: 53, or 54 with the table's report.
#[derive(Clone, Copy)]
pub enum WriteError {
    OutputShort,
    Refused(Report),
}

// What is wrong with a list: 50, 51 and 52.
#[derive(Clone, Copy)]
pub enum Fault {
    UnknownTag,
    CutShort,
    OutOfPlace,
}

// Why no table is made of a list: 50 to 52, 53, or 54 with the table's report.
#[derive(Clone, Copy)]
pub enum MakeError {
    Unread(Fault),
    Short,
    Refused(Report),
}
