//! The fault of a stream, and why a text isn't printed.

ghost use Rattle.std.specs.Prelude.{◌≡◌};

use no_memory::Memory;

/// A source or a sink answered a fault of its own.
#[derive(Clone, Copy, Debug, PartialEq, Eq)]
pub struct Failed;

/// Why a text isn't printed.
#[derive(Clone, Copy, Debug, PartialEq, Eq)]
pub enum PrintError {
    /// The sink failed. A prefix of the text may stand there.
    Write,
    /// Memory was refused. Nothing was written.
    Memory,
}

impl From<Memory> for PrintError {
    ghost use Rattle.streams.specs.declared.refusal.PrintError.TheVariants as print_error;

    ghost from_gives = { λ _ e. e ≡ print_error.Memory };

    fn from(_error: Memory) -> PrintError {
        PrintError::Memory
    }
}
