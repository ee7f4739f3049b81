//! The faults of an image text.

ghost use Rattle.std.specs.Prelude.{◌≡◌};
ghost use Rattle.ihex_read.specs.Names.{fault_name};

use std::alloc::{AllocError, AllocFailed};
use thiserror::Error;

/// What is wrong with a line of an image text. Where several are, the first of this list is told.
#[derive(Clone, Copy, Debug, PartialEq, Eq, Error)]
pub enum HexFault {
    /// A line that isn't blank begins with another byte than a colon.
    #[error("NoColon")]
    NoColon,
    /// A byte behind the colon is no hexadecimal digit.
    #[error("BadDigit")]
    BadDigit,
    /// The digits are odd in number, give fewer than 5 bytes, or the length byte isn't their number less 5.
    #[error("BadLength")]
    BadLength,
    /// The bytes don't sum to 0 modulo 256.
    #[error("BadSum")]
    BadSum,
    /// The type is above 05.
    #[error("BadType")]
    BadType,
    /// The number of data bytes isn't the one of the type.
    #[error("BadTypeLength")]
    BadTypeLength,
    /// A data byte's address is above FFFFh.
    #[error("OutOfRange")]
    OutOfRange,
    /// A data byte's address has another byte already.
    #[error("Clash")]
    Clash,
    /// MSP430: a data byte's address is below 0200h or in RAM.
    #[error("Misplaced")]
    Misplaced,
    /// The text ends without an end record.
    #[error("NoEnd")]
    NoEnd,
    /// A line behind the end record isn't blank, where no second text is expected.
    #[error("Trailing")]
    Trailing,
    /// MSP430: a byte of the reset vector isn't there.
    #[error("NoReset")]
    NoReset,
}

impl HexFault {
    /// Its name, as programs tell it.
    pub fn name(self) -> &'static str
        ensures { result.now ≡ fault_name self }
    {
        match self {
            HexFault::NoColon => "NoColon",
            HexFault::BadDigit => "BadDigit",
            HexFault::BadLength => "BadLength",
            HexFault::BadSum => "BadSum",
            HexFault::BadType => "BadType",
            HexFault::BadTypeLength => "BadTypeLength",
            HexFault::OutOfRange => "OutOfRange",
            HexFault::Clash => "Clash",
            HexFault::Misplaced => "Misplaced",
            HexFault::NoEnd => "NoEnd",
            HexFault::Trailing => "Trailing",
            HexFault::NoReset => "NoReset",
        }
    }
}

/// Why a text gives no image.
#[derive(Clone, Copy, Debug, PartialEq, Eq, Error)]
pub enum HexError {
    /// The first faulty line, counted from 1, and its fault.
    #[error("line {line}: {fault}")]
    Bad { line: u32, fault: HexFault },
    #[error("out of memory")]
    Memory,
}

impl From<AllocError> for HexError {
    ghost use Rattle.ihex_read.specs.declared.fault.HexError.TheVariants.{Memory};

    ghost from_gives = { λ _ e. e ≡ Memory };

    fn from(_error: AllocError) -> HexError {
        HexError::Memory
    }
}

impl<T: Drop> From<AllocFailed<T>> for HexError {
    ghost use Rattle.ihex_read.specs.declared.fault.HexError.TheVariants.{Memory};

    ghost from_gives = { λ _ e. e ≡ Memory };

    fn from(_error: AllocFailed<T>) -> HexError {
        HexError::Memory
    }
}
