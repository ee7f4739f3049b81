//! The texts of instructions.

ghost use Rattle.std.specs.Prelude.{◌≡◌};
ghost use Rattle.mcs51_flow.specs.Standing.{instr_text as the_text};

use arrayvec::ArrayString;
use item_lines::InstrText;
use mcs51_decode::from_bytes;
use mcs51_text::text;

/// The texts of the MCS-51's instructions, which need no program.
#[derive(Clone, Copy, Debug, PartialEq, Eq)]
pub struct Mcs51Text;

impl InstrText for Mcs51Text {
    ghost text_of = { λ _ pc bytes. the_text pc bytes };

    fn instr_text(&self, pc: u16, bytes: &[u8]) -> ArrayString<40> {
        match from_bytes(bytes) {
            Some(instr) => text(&instr, pc),
            None => ArrayString::new(),
        }
    }
}
