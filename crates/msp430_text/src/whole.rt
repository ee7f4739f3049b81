//! Whole instructions.

ghost use Rattle.std.specs.Prelude.{◌≡◌};
ghost use Rattle.msp430_decode.specs.Table.{IsInstr};
ghost use Rattle.msp430_text.specs.Text.{text_of};

use crate::names::{condition_name, operation_name, single_name, width_suffix};
use crate::parts::{push_destination, push_source};
use arrayvec::ArrayString;
use hex_digits::push_word;
use msp430_decode::{Instr, offset_target};

/// The text of an instruction at an address, as an assembly programmer writes it.
///
/// A mnemonic, `.B` for a byte form, a space, and the operands with a comma between them: `MOV.B #1,&09FFh`. Numbers
/// have four digits, also the immediates of byte instructions; `#0`, `#1`, `#2`, `#4`, `#8` and `#-1` are generated
/// constants. Symbolic operands and jumps show the address that they reach.
pub fn text(instr: &Instr, pc: u16) -> ArrayString<40>
    requires { IsInstr instr.now }
    ensures { result.bytes ≡ text_of pc instr.now }
{
    let mut text = ArrayString::new();
    match *instr {
        Instr::Double {
            operation,
            width,
            source,
            destination,
        } => {
            text.push_str(operation_name(operation));
            text.push_str(width_suffix(width));
            text.push_str(" ");
            push_source(&mut text, pc.wrapping_add(2), source);
            text.push_str(",");
            let at = pc.wrapping_add(2 + source.extension_length() as u16);
            push_destination(&mut text, at, destination);
        }
        Instr::Single {
            operation,
            width,
            operand,
        } => {
            text.push_str(single_name(operation));
            text.push_str(width_suffix(width));
            text.push_str(" ");
            push_source(&mut text, pc.wrapping_add(2), operand);
        }
        Instr::Jump { condition, offset } => {
            text.push_str(condition_name(condition));
            text.push_str(" ");
            push_word(&mut text, offset_target(pc, offset));
        }
        Instr::ReturnFromInterrupt => text.push_str("RETI"),
    }
    text
}
