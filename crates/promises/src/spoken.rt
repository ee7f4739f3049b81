//! What an image and its chip say of instructions.

ghost use Rattle.std.specs.Prelude.{◌≡◌};
ghost use Rattle.promises.specs.Spoken as specs;

/// How the stack of a chip grows.
#[derive(Clone, Copy, Debug, PartialEq, Eq)]
pub enum Growth {
    /// Down, by words: it stands from the stack pointer on upward, in the one memory of an MSP430.
    Down,
    /// Up, by bytes: it stands from the stack pointer on downward, in the internal RAM of an MCS-51.
    Up,
}

/// What stands at an address.
#[derive(Clone, Copy, Debug, PartialEq, Eq)]
pub enum Site {
    /// No instruction that a promise may name.
    Nothing,
    /// One that stores so many bytes, 1 or 2, where a register points.
    Store { size: u8 },
    /// One that goes on where a value says.
    Way,
}

/// What promises may be made of: an image, and the chip that runs it.
pub trait Spoken {
    /// What is said of each address.
    ghost spoken: { Self → specs.Spoken };

    /// How the stack of the chip grows.
    fn growth(&self) -> Growth
        ensures { result ≡ (spoken self.now).growth };

    /// What stands at an address.
    fn site_at(&self, pc: u16) -> Site
        ensures { result ≡ (spoken self.now).at pc };
}
