//! The instruction at an address.

ghost use Rattle.std.specs.Prelude.{◌≡◌, ◌≤◌, ◌<◌, ◌+◌, ◌*◌, ◌%◌, ℕ, Some, Result, IfOk, IfErr, IfSome, IsTrue};
ghost use Rattle.msp430_decode.specs.declared.instr.Instr.{Instr};
ghost use Rattle.msp430_decode.specs.declared.refusal.NoInstr.{NoInstr};
ghost use Rattle.msp430_decode.specs.Table.{IsInstr, Row};
ghost use Rattle.msp430_decode.specs.Standing.{Decodes};
ghost use Rattle.msp430_decode.specs.Reading.{HasWord, Misses};
ghost use Rattle.msp430_decode.specs.Decoding.{word_upward, extension_upward, decoded, IsAnswer, instr_of_words, instr_of_bytes};

use crate::fields::{instr_from, is_no_instruction};
use crate::instr::Instr;
use crate::refusal::NoInstr;
use image::Image;

/// The word that stands so many bytes upward from an address.
fn word_at(image: &Image, pc: u16, offset: u16) -> Result<u16, NoInstr>
    requires { offset < 6 }
    ensures exact { result ≡ word_upward image.now pc offset }
    ensures word { IfOk result (λ word. HasWord image.now pc offset word) }
    ensures gap { IfErr result (λ refusal. Misses image.now pc offset refusal) }
{
    let at = pc.wrapping_add(offset);
    let Some(low) = image.byte(at) else {
        return Err(NoInstr::OffImage(at));
    };
    let next = pc.wrapping_add(offset + 1);
    let Some(high) = image.byte(next) else {
        return Err(NoInstr::OffImage(next));
    };
    Ok(low as u16 + 256 * high as u16)
}

/// The same where the word is needed, and else 0.
fn extension_at(image: &Image, pc: u16, offset: u16, is_needed: bool) -> Result<u16, NoInstr>
    requires { offset < 6 }
    ensures exact { result ≡ extension_upward image.now pc offset is_needed }
    ensures word { IfOk result (λ word. IsTrue is_needed → HasWord image.now pc offset word) }
    ensures needed { IfErr result (λ refusal. IsTrue is_needed) }
    ensures gap { IfErr result (λ refusal. Misses image.now pc offset refusal) }
{
    if is_needed {
        word_at(image, pc, offset)
    } else {
        Ok(0)
    }
}

/// The one answer at an address.
fn answer_at(image: &Image, pc: u16) -> Result<(Instr, u8), NoInstr>
    requires { pc % 2 ≡ 0 }
    ensures { IsAnswer image.now pc result }
{
    let word = word_at(image, pc, 0)?;
    if is_no_instruction(word) {
        return Err(NoInstr::Excluded);
    }
    let length = instr_from(word, 0, 0).length();
    let first = extension_at(image, pc, 2, length > 2)?;
    let second = extension_at(image, pc, 4, length > 4)?;
    Ok((instr_from(word, first, second), length))
}

/// The instruction at an even address, and the number of its bytes.
///
/// # Errors
///
/// [`NoInstr::OffImage`] where the image lacks a byte that the instruction needs: the first word's two, and then those
/// of the extension words of an instruction with this first word. It names the first of them that is missing, upward
/// from the address. [`NoInstr::Excluded`] where no instruction begins with the first word, whatever follows it.
pub fn decode(image: &Image, pc: u16) -> Result<(Instr, u8), NoInstr>
    requires { pc % 2 ≡ 0 }
    ensures exact { result ≡ decoded image.now pc }
    ensures one { Decodes image.now pc result }
    ensures only { (other : Result (Instr × ℕ) NoInstr) → Decodes image.now pc other → other ≡ result }
    ensures in_table { IfOk result (λ found. IsInstr found.0) }
{
    answer_at(image, pc)
}

/// The instruction of a first word and two further ones, where it has this length.
fn whole_instr(length: u8, word: u16, first: u16, second: u16) -> Option<Instr>
    ensures { result ≡ instr_of_words length word first second }
{
    if is_no_instruction(word) {
        return None;
    }
    let instr = instr_from(word, first, second);
    if instr.length() != length {
        return None;
    }
    Some(instr)
}

/// The word of two bytes.
fn word_of_bytes(low: u8, high: u8) -> u16
    ensures { result ≡ low + 256 * high }
{
    low as u16 + 256 * high as u16
}

/// The same of bytes, by their number.
#[tactic(auto, using(crate::proofs::BytesLemmas::six_bytes), unfolding(crate::specs::Decoding::instr_of_bytes))]
fn instr_of_slice(bytes: &[u8]) -> Option<Instr>
    ensures { result ≡ instr_of_bytes bytes.now }
{
    match bytes {
        [a, b] => whole_instr(2, word_of_bytes(*a, *b), 0, 0),
        [a, b, c, d] => whole_instr(4, word_of_bytes(*a, *b), word_of_bytes(*c, *d), 0),
        [a, b, c, d, e, f] => whole_instr(
            6,
            word_of_bytes(*a, *b),
            word_of_bytes(*c, *d),
            word_of_bytes(*e, *f),
        ),
        _ => None,
    }
}

/// The instruction whose bytes these are, all of them. Bytes that are no instruction have none, and so have bytes of
/// which a front is one.
pub fn from_bytes(bytes: &[u8]) -> Option<Instr>
    ensures exact { result ≡ instr_of_bytes bytes.now }
    ensures row { IfSome result (λ instr. Row bytes.now instr) }
    ensures every { (instr : Instr) → Row bytes.now instr → result ≡ Some instr }
{
    instr_of_slice(bytes)
}
