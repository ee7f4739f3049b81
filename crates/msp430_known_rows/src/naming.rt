//! What a word of a row puts into a state.

ghost use Rattle.std.specs.Prelude.{ℕ, ◌<◌};
ghost use Rattle.value_set.specs.Form.{Has};

use crate::facts::{bit_named, bit_of, fact_of, status_of};
use crate::sets::{number_of, range_of, register_of, word_of};
use abs_pages::CellPages;
use entry_value::{Cells, Word, bytes_stay_bytes};
use msp430_state::State;
use no_memory::Memory;
use value_bits::w16;
use value_set::Vs8;

/// The low byte of a word, as a cell of RAM holds it.
fn byte_word(word: &Word) -> Word
    ensures { (n : ℕ) → Has 65536 result.set n → n < 256 }
{
    bytes_stay_bytes();
    let byte = w16::low(&word.set);
    byte.form();
    Word {
        set: w16::pair(&byte, &Vs8::one(0)),
        entry: word.entry,
    }
}

/// Puts a word, or a byte, into the RAM at the address of a name, if it is one.
fn put_cell(state: &mut State<CellPages>, name: &str, word: &Word) -> Result<bool, Memory> {
    if let Some(digits) = name.strip_prefix('b')
        && let Some(at) = number_of(digits)
    {
        state.cells.write_one(at, 1, byte_word(word))?;
        return Ok(true);
    }
    match number_of(name) {
        Some(at) => {
            state.cells.write_one(at, 2, *word)?;
            Ok(true)
        }
        None => Ok(false),
    }
}

/// Puts a word into the register or the RAM of a name, if it is one.
fn put_word(state: &mut State<CellPages>, name: &str, word: &Word) -> Result<bool, Memory> {
    if name == "SP" {
        state.sp = word.set;
        return Ok(true);
    }
    match register_of(name) {
        Some(number) => {
            state.registers[number as usize - 4] = *word;
            Ok(true)
        }
        None => put_cell(state, name, word),
    }
}

/// Puts bits or a fact there, if the name is theirs.
fn put_fact(state: &mut State<CellPages>, name: &str, value: &str) -> bool {
    match name {
        "SR" => state.status = status_of(value),
        "late" => state.late = bit_of(value),
        "fact" => state.fact = fact_of(value),
        _ => {
            let Some(place) = bit_named(name) else {
                return false;
            };
            state.status.bits[place] = bit_of(value);
        }
    }
    true
}

/// Touches a range of RAM.
fn touch(state: &mut State<CellPages>, range: &str) -> Result<bool, Memory> {
    match range_of(range) {
        Some((low, high)) if low <= high => {
            state.touched.add(low, high)?;
            Ok(true)
        }
        _ => Ok(false),
    }
}

/// Puts what a word says into a state, and says whether it says anything.
pub fn put(state: &mut State<CellPages>, name: &str, value: &str) -> Result<bool, Memory> {
    if name == "touched" {
        return touch(state, value);
    }
    if put_fact(state, name, value) {
        return Ok(true);
    }
    match word_of(value) {
        Some(word) => put_word(state, name, &word),
        None => Ok(false),
    }
}
