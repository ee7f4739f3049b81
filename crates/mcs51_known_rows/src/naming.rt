//! What a word of a row puts into a state.

ghost use Rattle.std.specs.Prelude.{ℕ, ◌<◌};
ghost use Rattle.value_set.specs.Form.{Has};

use crate::facts::{carry_of, levels_of, linear_of};
use crate::sets::{byte_number, byte_of, number_of};
use abs_memory::CellList;
use entry_value::{Byte, Cells, Word, bytes_stay_bytes};
use mcs51_state::{State, Status};
use no_memory::Memory;
use value_bits::{Tri, w8, w16};
use value_set::Vs8;

/// A byte as a cell of RAM holds it.
fn word_of(byte: &Byte) -> Word
    ensures { (n : ℕ) → Has 65536 result.set n → n < 256 }
{
    bytes_stay_bytes();
    byte.set.form();
    Word {
        set: w16::pair(&byte.set, &Vs8::one(0)),
        entry: byte.entry,
    }
}

/// The place of a bit among those of PSW.
fn bit_named(name: &str) -> Option<usize> {
    match name {
        "OV" => Some(0),
        "RS0" => Some(1),
        "RS1" => Some(2),
        "F0" => Some(3),
        "AC" => Some(4),
        "CY" => Some(5),
        _ => None,
    }
}

/// What is known of a bit.
fn bit_of(text: &str) -> Option<Tri> {
    match text {
        "0" => Some(Tri::Zero),
        "1" => Some(Tri::One),
        "*" => Some(Tri::Either),
        _ => None,
    }
}

/// PSW by a byte.
fn status_of(byte: &Byte) -> Status {
    let mut bits = [Tri::Either; 6];
    bits.copy_from_slice(&w8::bits(&byte.set)[2..]);
    Status {
        bits,
        entry: byte.entry,
    }
}

/// Puts a byte into the register or the byte of RAM of a name, if it is one.
fn put_byte(state: &mut State<CellList>, name: &str, byte: &Byte) -> Result<bool, Memory> {
    match name {
        "A" => state.a = *byte,
        "B" => state.b = *byte,
        "SP" => state.sp = byte.set,
        "DPL" => state.dpl = *byte,
        "DPH" => state.dph = *byte,
        "IE" => state.ie = *byte,
        "IP" => state.ip = *byte,
        "PSW" => state.psw = status_of(byte),
        _ => {
            let Some(at) = byte_number(name) else {
                return Ok(false);
            };
            state.cells.write_one(u16::from(at), 1, word_of(byte))?;
        }
    }
    Ok(true)
}

/// Puts a bit, a fact or levels there, if the name is theirs.
fn put_fact(state: &mut State<CellList>, name: &str, value: &str) -> bool {
    match name {
        "levels" => state.levels = levels_of(value),
        "linear" => state.linear_fact = linear_of(value),
        "carry" => state.carry_fact = carry_of(value),
        _ => {
            let (Some(bit), Some(known)) = (bit_named(name), bit_of(value)) else {
                return false;
            };
            state.psw.bits[bit % 6] = known;
        }
    }
    true
}

/// Touches a range of RAM.
fn touch(state: &mut State<CellList>, range: &str) -> Result<bool, Memory> {
    let (low, high) = range.split_once('-').unwrap_or((range, range));
    match (number_of(low), number_of(high)) {
        (Some(low), Some(high)) if low <= high => {
            state.touched.add(low, high)?;
            Ok(true)
        }
        _ => Ok(false),
    }
}

/// Puts what a word says into a state, and says whether it says anything.
pub fn put(state: &mut State<CellList>, name: &str, value: &str) -> Result<bool, Memory> {
    if name == "touched" {
        return touch(state, value);
    }
    if put_fact(state, name, value) {
        return Ok(true);
    }
    match byte_of(value) {
        Some(byte) => put_byte(state, name, &byte),
        None => Ok(false),
    }
}
