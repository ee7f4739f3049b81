//! What is wrong with a text of promises.

use std::alloc::{AllocError, AllocFailed};
use thiserror::Error;

/// What is wrong with a line. Where several are, the first of this list is told.
#[derive(Clone, Copy, Debug, PartialEq, Eq, Error)]
pub enum PromiseFault {
    /// It is of no form: a range ends before it begins, there are more than 4 windows, 256 targets or, with those in front of it,
    /// 256 promises; or it is the line behind the last, and none is `END`.
    #[error("Syntax")]
    Syntax,
    /// Of its site nothing can be promised, or a window cuts through a word, or no instruction can stand at a target.
    #[error("Site")]
    Site,
    /// Its site has such a promise already, or a target stands there twice.
    #[error("Twice")]
    Twice,
}

/// Why a text gives no promises.
#[derive(Clone, Copy, Debug, PartialEq, Eq, Error)]
pub enum PromiseError {
    /// The first faulty line, counted from 1, and its fault.
    #[error("line {line}: {fault}")]
    Bad { line: u32, fault: PromiseFault },
    #[error("out of memory")]
    Memory,
}

impl From<AllocError> for PromiseError {
    ghost use Rattle.std.specs.Prelude.{◌≡◌};
    ghost use Rattle.promises.specs.declared.fault.PromiseError.TheVariants.{Memory};

    ghost from_gives = { λ _ e. e ≡ Memory };

    fn from(_error: AllocError) -> PromiseError {
        PromiseError::Memory
    }
}

impl<T: Drop> From<AllocFailed<T>> for PromiseError {
    ghost use Rattle.std.specs.Prelude.{◌≡◌};
    ghost use Rattle.promises.specs.declared.fault.PromiseError.TheVariants.{Memory};

    ghost from_gives = { λ _ e. e ≡ Memory };

    fn from(_error: AllocFailed<T>) -> PromiseError {
        PromiseError::Memory
    }
}
