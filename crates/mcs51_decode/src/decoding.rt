//! The instruction at an address.

ghost use Rattle.std.specs.Prelude.{◌≡◌, ◌≤◌, ◌<◌, ◌+◌, ◌*◌, ◌%◌, ℕ, List, length, Some, Result, IfOk, IfErr, IfSome, IsTrue, false};
ghost use Rattle.mcs51_decode.specs.declared.instr.Instr.{Instr};
ghost use Rattle.mcs51_decode.specs.declared.refusal.NoInstr.{NoInstr};
ghost use Rattle.mcs51_decode.specs.Table.{Row, is_excluded, length_at, row_at};
ghost use Rattle.mcs51_decode.specs.Standing.{Decodes};
ghost use Rattle.mcs51_decode.specs.Decoding.{byte_upward, operand_upward, decoded, IsAnswer, instr_of_opcode, instr_of_bytes};

use crate::instr::Instr;
use crate::refusal::NoInstr;
use crate::rows::row_of;
use image::Image;

/// Whether an opcode is no instruction's.
fn is_no_instruction(opcode: u8) -> bool
    ensures { result ≡ is_excluded opcode }
{
    opcode == 0xA5
}

/// How many bytes the instructions with an opcode have.
fn length_of_opcode(opcode: u8) -> u8
    requires { is_excluded opcode ≡ false }
    ensures { result ≡ length_at opcode }
{
    let (length, _) = row_of(opcode, 0, 0);
    length
}

/// The instruction of an opcode and the two bytes behind it, as far as it takes them.
fn instr_from(opcode: u8, first: u8, second: u8) -> Instr
    requires { is_excluded opcode ≡ false }
    ensures { result ≡ (row_at opcode first second).1 }
{
    let (_, instr) = row_of(opcode, first, second);
    instr
}

/// The byte that stands so many bytes upward from an address.
fn byte_at(image: &Image, pc: u16, offset: u16) -> Result<u8, NoInstr>
    ensures { result ≡ byte_upward image.now pc offset }
{
    let at = pc.wrapping_add(offset);
    let Some(byte) = image.byte(at) else {
        return Err(NoInstr::OffImage(at));
    };
    Ok(byte)
}

/// The same where the byte is needed, and else 0.
fn operand_at(image: &Image, pc: u16, offset: u16, is_needed: bool) -> Result<u8, NoInstr>
    ensures { result ≡ operand_upward image.now pc offset is_needed }
{
    if is_needed {
        byte_at(image, pc, offset)
    } else {
        Ok(0)
    }
}

/// The one answer at an address.
fn answer_at(image: &Image, pc: u16) -> Result<(Instr, u8), NoInstr>
    ensures { IsAnswer image.now pc result }
{
    let opcode = byte_at(image, pc, 0)?;
    if is_no_instruction(opcode) {
        return Err(NoInstr::Excluded);
    }
    let length = length_of_opcode(opcode);
    let first = operand_at(image, pc, 1, length > 1)?;
    let second = operand_at(image, pc, 2, length > 2)?;
    Ok((instr_from(opcode, first, second), length))
}

/// The instruction at an address, and the number of its bytes.
///
/// # Errors
///
/// [`NoInstr::OffImage`] where the image lacks a byte that the instruction needs: the opcode, and then the operands of
/// an instruction with this opcode. It names the first of them that is missing, upward from the address.
/// [`NoInstr::Excluded`] where the opcode is A5h, whatever follows it.
pub fn decode(image: &Image, pc: u16) -> Result<(Instr, u8), NoInstr>
    ensures exact { result ≡ decoded image.now pc }
    ensures one { Decodes image.now pc result }
    ensures only { (other : Result (Instr × ℕ) NoInstr) → Decodes image.now pc other → other ≡ result }
{
    answer_at(image, pc)
}

/// The instruction of an opcode and the two bytes behind it, where it has this length.
fn whole_instr(length: u8, opcode: u8, first: u8, second: u8) -> Option<Instr>
    ensures { result ≡ instr_of_opcode length opcode first second }
{
    if is_no_instruction(opcode) {
        return None;
    }
    let (found, instr) = row_of(opcode, first, second);
    if found != length {
        return None;
    }
    Some(instr)
}

/// The same of bytes, by their number.
#[tactic(auto, unfolding(crate::specs::Decoding::instr_of_bytes))]
fn instr_of_slice(bytes: &[u8]) -> Option<Instr>
    ensures { result ≡ instr_of_bytes bytes.now }
{
    match bytes {
        [opcode] => whole_instr(1, *opcode, 0, 0),
        [opcode, first] => whole_instr(2, *opcode, *first, 0),
        [opcode, first, second] => whole_instr(3, *opcode, *first, *second),
        _ => None,
    }
}

/// The instruction whose bytes these are, all of them. Bytes that are no instruction have none, and so have bytes of
/// which a front is one.
pub fn from_bytes(bytes: &[u8]) -> Option<Instr>
    ensures exact { result ≡ instr_of_bytes bytes.now }
    ensures row { IfSome result (λ instr. Row bytes.now instr) }
    ensures every { (instr : Instr) → Row bytes.now instr → result ≡ Some instr }
{
    instr_of_slice(bytes)
}
