//! What a call answers.

use round_core::Event;

/// How a call ended, with the program's exit status as its number.
#[derive(Clone, Copy, Debug, PartialEq, Eq)]
pub enum Status {
    /// The report is closed, its assertions hold, the certificate's table is closed, or the image is disassembled.
    Done = 0,
    /// The report is open.
    Open = 1,
    /// The words aren't a reading.
    Usage = 2,
    /// The input gives no image.
    BadImage = 3,
    /// The text behind the image text is refused.
    BadCert = 4,
    /// The source failed.
    ReadFault = 5,
    /// The sink failed.
    WriteFault = 6,
    /// Memory was refused.
    Memory = 7,
    /// A text is longer than its limit.
    TooLong = 8,
    /// The run met what the model leaves out.
    Wild = 9,
    /// The script ended before a choice of the run.
    NeedChoice = 10,
    /// The report is closed, and breaks an assertion.
    Broken = 11,
}

/// What a call answers.
#[derive(Drop)]
pub struct Outcome {
    pub status: Status,
    /// The events whose replay gives the printed book, where one is printed.
    pub journal: Vec<Event>,
}
