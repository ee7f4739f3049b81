//! What is wrong with a certificate.

ghost use Rattle.std.specs.Prelude.{◌≡◌};

use no_memory::Memory;
use std::alloc::AllocFailed;
use thiserror::Error;

/// What is wrong with a line.
#[derive(Clone, Copy, Debug, PartialEq, Eq)]
pub enum LineFault {
    /// It isn't spelled as a line that may stand there.
    Syntax,
    /// Its node doesn't stand above the one before it.
    Order,
}

/// Why a text denotes no table.
#[derive(Clone, Copy, Debug, PartialEq, Eq, Error)]
pub enum ReadError {
    /// The first faulty line, counted from 1.
    #[error("line {line}")]
    Bad { line: u32, fault: LineFault },
    #[error("out of memory")]
    Memory,
}

impl<T: Drop> From<AllocFailed<T>> for ReadError {
    ghost use Rattle.cert_text.specs.declared.fault.ReadError.TheVariants as errors;

    ghost from_gives = { λ _ e. e ≡ errors.Memory };

    fn from(_error: AllocFailed<T>) -> ReadError {
        ReadError::Memory
    }
}

impl From<Memory> for ReadError {
    ghost use Rattle.cert_text.specs.declared.fault.ReadError.TheVariants as errors;

    ghost from_gives = { λ _ e. e ≡ errors.Memory };

    fn from(_error: Memory) -> ReadError {
        ReadError::Memory
    }
}
