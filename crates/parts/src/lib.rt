// A join taken apart (specs/Cut.antt) and longer joins (specs/Brackets.antt): definitions and their laws. There is no code here but the answer's cases.
use paper::Report;

// Why a table is not taken apart: its own report, 60 and 61.
#[derive(Clone, Copy)]
pub enum SplitError {
    Refused(Report),
    NoCut,
    OutputShort,
}
