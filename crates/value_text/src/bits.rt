//! Known bits.

ghost use Rattle.std.specs.Prelude.{◌≡◌, ◌++◌, OnOk, length};
ghost use Rattle.value_text.specs.Bits as fields;

use std::alloc::AllocError;
use value_bits::Tri;

/// The bit that a character stands for.
fn bit_of(byte: u8) -> Option<Tri>
    ensures { result ≡ fields.bit_of byte }
{
    match byte {
        b'0' => Some(Tri::Zero),
        b'1' => Some(Tri::One),
        b'x' => Some(Tri::Either),
        _ => None,
    }
}

/// The bits that a text spells: the highest first in the text, and the lowest first in the array.
pub fn read_bits<const N: usize>(text: &[u8]) -> Option<[Tri; N]>
    ensures { result ≡ (fields.bits_field N).value text.now }
{
    if text.len() != N {
        return None;
    }
    let mut bits = [Tri::Zero; N];
    for i in 0..N {
        let Some(bit) = bit_of(text[i]) else {
            return None;
        };
        bits[N - 1 - i] = bit;
    }
    Some(bits)
}

/// The character of a known bit.
fn bit_code(bit: Tri) -> u8
    ensures { result ≡ fields.bit_code bit }
{
    match bit {
        Tri::Zero => b'0',
        Tri::One => b'1',
        Tri::Either => b'x',
    }
}

/// The bit that a text of one character spells.
pub fn read_bit(text: &[u8]) -> Option<Tri>
    ensures { result ≡ fields.bit_field.value text.now }
{
    match text {
        [byte] => bit_of(*byte),
        _ => None,
    }
}

/// Adds a known bit.
pub fn push_bit(bit: Tri, out: &mut Vec<u8>) -> Result<(), AllocError>
    ensures { OnOk result (out.new.items ≡ out.old.items ++ fields.bit_field.text bit) }
{
    out.push(bit_code(bit))?;
    Ok(())
}

/// Adds known bits, which are listed from the lowest on.
pub fn push_bits(bits: &[Tri], out: &mut Vec<u8>) -> Result<(), AllocError>
    ensures { OnOk result (out.new.items ≡ out.old.items
        ++ (fields.bits_field (length bits.now)).text bits.now) }
{
    let [lowest, higher @ ..] = bits else {
        return Ok(());
    };
    push_bits(higher, out)?;
    out.push(bit_code(*lowest))?;
    Ok(())
}
