//! The texts of instructions, which a chip gives.

ghost use Rattle.std.specs.Prelude.{◌≡◌, ℕ, List};

use arrayvec::ArrayString;

/// The texts of a chip's instructions.
pub trait InstrText {
    /// The text of the instruction of these bytes at an address.
    ghost text_of: { Self → ℕ → List ℕ → List ℕ };

    /// The text of the instruction of these bytes at an address, at most 40 characters.
    fn instr_text(&self, pc: u16, bytes: &[u8]) -> ArrayString<40>
        ensures { result.bytes ≡ text_of self.now pc bytes.now };
}
