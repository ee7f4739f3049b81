//! Why a report is refused.

use std::alloc::{AllocError, AllocFailed};

/// What is wrong with a line.
#[derive(Clone, Copy, Debug, PartialEq, Eq)]
pub enum Why {
    Empty,
    NotText,
    NoVerdict,
    NoLineFeed,
    NoSummary,
    BehindSummary,
    OutOfOrder,
    NoLetter,
    Edge,
    Instr,
    Access,
    Open,
    Stack,
    Summary,
    SecondInstr,
    OpenInClosed,
    OtherWidth,
    OtherSummary,
}

impl Why {
    /// A sentence that says it.
    pub fn sentence(self) -> &'static str {
        match self {
            Why::Empty => "The report is empty.",
            Why::NotText => "This line has a byte that is no printable ASCII character.",
            Why::NoVerdict => "The first line of a report is CLOSED or OPEN.",
            Why::NoLineFeed => "This line ends without a line feed: the report is cut.",
            Why::NoSummary => "The report ends without its T line: it is cut.",
            Why::BehindSummary => "No line stands behind the T line of a report.",
            Why::OutOfOrder =>
                "The lines of a report ascend by their bytes, and none stands twice.",
            Why::NoLetter => "A line of a report begins with E, I, M, O, S or T and a space.",
            Why::Edge => "An E line is `E from to`, with two addresses of four digits.",
            Why::Instr => "An I line is `I address bytes text`, with one to six bytes.",
            Why::Access => "An M line is `M address space kind set`.",
            Why::Open => {
                "An O line is `O address cause`, with the cause Fetch, Targets set or Store set."
            }
            Why::Stack => "An S line is `S address set`.",
            Why::Summary => "A T line is `T value count`, and the value may be none.",
            Why::SecondInstr => "Another instruction stands at this address already.",
            Why::OpenInClosed => "A report that says CLOSED has no O line.",
            Why::OtherWidth =>
                "The stack pointers of one report all have two digits, or all have four.",
            Why::OtherSummary => "This T line isn't the summary of the S lines above it.",
        }
    }
}

/// The first line that is refused, counted from 1, and why.
#[derive(Clone, Copy, Debug, PartialEq, Eq)]
pub struct Refusal {
    pub line: usize,
    pub why: Why,
}

/// Why a text gives no report.
#[derive(Clone, Copy, Debug, PartialEq, Eq)]
pub enum ReadError {
    Refused(Refusal),
    Memory,
}

impl From<AllocError> for ReadError {
    fn from(_error: AllocError) -> ReadError {
        ReadError::Memory
    }
}

impl<T: Drop> From<AllocFailed<T>> for ReadError {
    fn from(_error: AllocFailed<T>) -> ReadError {
        ReadError::Memory
    }
}
