//! The texts of instructions.

ghost use Rattle.std.specs.Prelude.{◌≡◌};
ghost use Rattle.msp430_flow.specs.Standing.{instr_text as the_text};

use arrayvec::ArrayString;
use item_lines::InstrText;
use msp430_decode::from_bytes;
use msp430_text::text;

/// The texts of the MSP430's instructions, which need no program.
#[derive(Clone, Copy, Debug, PartialEq, Eq)]
pub struct Msp430Text;

impl InstrText for Msp430Text {
    ghost text_of = { λ _ pc bytes. the_text pc bytes };

    fn instr_text(&self, pc: u16, bytes: &[u8]) -> ArrayString<40> {
        match from_bytes(bytes) {
            Some(instr) => text(&instr, pc),
            None => ArrayString::new(),
        }
    }
}
