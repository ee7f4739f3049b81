//! What a step does, before anything is written.

ghost use Rattle.std.specs.Prelude.{◌≡◌, ◌<◌};
ghost use Rattle.msp430_decode.specs.declared.instr.Width.TheVariants as widths;
ghost use Rattle.msp430_chip.specs.Arithmetic.{modulus};

use arrayvec::ArrayVec;
use msp430_decode::Width;

/// A word or a byte to be stored at an address.
#[derive(Clone, Copy)]
pub(crate) struct Store {
    pub width: Width,
    pub at: u16,
    pub value: u16,
    ghost fits: { value < modulus width },
}

/// A read or a write of a word or a byte at an address.
#[derive(Clone, Copy)]
pub(crate) struct Access {
    pub write: bool,
    pub width: Width,
    pub at: u16,
}

impl Access {
    /// An access of a word of the stack.
    pub(crate) fn of_stack(write: bool, at: u16) -> Access
        ensures { result ≡ record { write = write; width = widths.Word; at = at } }
    {
        Access {
            write,
            width: Width::Word,
            at,
        }
    }
}

/// The accesses of a step, in order.
#[derive(Clone, Copy)]
pub(crate) struct Accesses {
    pub first: Option<Access>,
    pub second: Option<Access>,
    pub third: Option<Access>,
}

/// The registers behind an instruction, and its store.
#[derive(Clone, Copy)]
pub(crate) struct Effect {
    pub registers: [u16; 16],
    pub store: Option<Store>,
}

/// What an instruction does.
#[derive(Clone, Copy)]
pub(crate) struct Draft {
    pub accesses: Accesses,
    pub effect: Effect,
}

/// What a whole step does.
#[derive(Drop)]
pub(crate) struct Plan {
    /// The instruction that runs, if one does.
    pub bytes: Option<ArrayVec<u8, 6>>,
    pub accesses: Accesses,
    pub registers: [u16; 16],
    pub first: Option<Store>,
    pub second: Option<Store>,
    pub late: bool,
}
