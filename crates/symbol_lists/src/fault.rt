//! Why a text gives no symbols.

use crate::symbol::Form;
use std::alloc::AllocFailed;

/// Why a text gives no symbols.
#[derive(Clone, Copy, Debug, PartialEq, Eq)]
pub enum SymbolError {
    /// The first refused line, counted from 1, and the list that it should be a line of.
    Bad { line: u32, form: Form },
    Memory,
}

impl SymbolError {
    /// A sentence that says what is wrong with the line.
    pub fn sentence(self) -> &'static str {
        match self {
            SymbolError::Bad { line: 1, form: _ } => {
                "It is no list of symbols: neither what nm prints, as `0000f000 T main`, nor a .noi or .map of sdcc."
            }
            SymbolError::Bad {
                line: _,
                form: Form::Nm,
            } => {
                "A line of what nm prints is a value, with -S a size, a letter and a name, as `0000f000 T main`."
            }
            SymbolError::Bad { line: _, form: _ } => {
                "A line of a .noi is `DEF name 0xvalue`, or begins with LOAD."
            }
            SymbolError::Memory => "Memory ran out.",
        }
    }
}

impl<T: Drop> From<AllocFailed<T>> for SymbolError {
    ghost use Rattle.std.specs.Prelude.{◌≡◌};
    ghost use Rattle.symbol_lists.specs.declared.fault.SymbolError.TheVariants.{Memory};

    ghost from_gives = { λ _ e. e ≡ Memory };

    fn from(_error: AllocFailed<T>) -> SymbolError {
        SymbolError::Memory
    }
}
