//! Cells of one representation: those that the calls make, those in front of the last call, and others.

ghost use Rattle.std.specs.Prelude.{ℕ, ◌<◌, ◌≤◌};
ghost use Rattle.value_set.specs.Form.{Has};

use crate::ranges::Fourth;
use crate::values::{Put, Value};
use entry_value::{Byte, Cells, Word, bytes_stay_bytes};
use irq_frames::{Ranges, resume_cells};
use no_memory::Memory;
use std::alloc::Global;
use value_bits::w16;
use value_set::Vs8;

/// A call.
#[derive(Clone, Copy)]
pub enum Call {
    Write,
    WriteAny,
    Join,
    Widen,
    Others,
    Exit,
}

/// The cells.
#[derive(Drop)]
pub struct Kept<C> {
    none: C,
    pub these: C,
    pub before: C,
    pub others: C,
}

/// A byte as a cell holds it.
fn word_of(byte: &Byte) -> Word
    ensures { (n : ℕ) → Has 65536 result.set n → n < 256 }
{
    bytes_stay_bytes();
    byte.set.form();
    Word {
        set: w16::pair(&byte.set, &Vs8::one(0)),
        entry: byte.entry,
    }
}

/// Writes a value at its first address.
fn write_one<C: Cells>(cells: &mut C, put: &Put) -> Result<(), Memory> {
    match &put.value {
        Value::Byte(byte) => cells.write_one(put.first, 1, word_of(byte)),
        Value::Word(word) => cells.write_one(put.first, 2, *word),
        Value::ByteAt(place) => {
            let read = cells.read(*place, 1);
            cells.write_one(put.first, 1, read)
        }
        Value::WordAt(place) => {
            let read = cells.read(*place, 2);
            cells.write_one(put.first, 2, read)
        }
    }
}

/// Writes a value at one of its addresses.
fn write_any<C: Cells>(cells: &mut C, put: &Put) -> Result<(), Memory> {
    match &put.value {
        Value::Byte(byte) => cells.write_any(&put.at, 1, word_of(byte)),
        Value::Word(word) => cells.write_any(&put.at, 2, *word),
        Value::ByteAt(place) => {
            let read = cells.read(*place, 1);
            cells.write_any(&put.at, 1, read)
        }
        Value::WordAt(place) => {
            let read = cells.read(*place, 2);
            cells.write_any(&put.at, 2, read)
        }
    }
}

fn write_all<C: Cells>(cells: &mut C, puts: &[Put]) -> Result<(), Memory> {
    for put in puts {
        write_one(cells, put)?;
    }
    Ok(())
}

fn write_any_of<C: Cells>(cells: &mut C, puts: &[Put]) -> Result<(), Memory> {
    for put in puts {
        write_any(cells, put)?;
    }
    Ok(())
}

/// A copy that got some writes.
fn written<C: Cells>(alloc: Global, cells: &C, puts: &[Put]) -> Result<C, Memory> {
    let mut others = cells.copy(alloc)?;
    write_all(&mut others, puts)?;
    Ok(others)
}

/// Whether each value is read at its first address.
pub fn are_read<C: Cells>(cells: &C, puts: &[Put]) -> bool {
    for put in puts {
        let (read, wanted) = match &put.value {
            Value::Byte(byte) => (cells.read(put.first, 1), word_of(byte)),
            Value::Word(word) => (cells.read(put.first, 2), *word),
            Value::ByteAt(place) => (cells.read(put.first, 1), cells.read(*place, 1)),
            Value::WordAt(place) => (cells.read(put.first, 2), cells.read(*place, 2)),
        };
        if read != wanted {
            return false;
        }
    }
    true
}

/// Whether the cell with the least place that is at least an address is this one.
pub fn is_next<C: Cells>(cells: &C, from: u16, put: Option<&Put>) -> bool {
    let found = cells.next(u32::from(from));
    match put {
        Some(put) => match &put.value {
            Value::Byte(byte) => found == Some((put.first, 1, word_of(byte))),
            Value::Word(word) => found == Some((put.first, 2, *word)),
            Value::ByteAt(_) | Value::WordAt(_) => false,
        },
        None => found.is_none(),
    }
}

impl<C: Cells> Kept<C> {
    /// No cells.
    pub fn new(alloc: Global, low: u16, high: u16) -> Result<Kept<C>, Memory>
        requires { low ≤ high }
    {
        Ok(Kept {
            none: C::empty(alloc, low, high)?,
            these: C::empty(alloc, low, high)?,
            before: C::empty(alloc, low, high)?,
            others: C::empty(alloc, low, high)?,
        })
    }

    /// Makes a call.
    pub fn call(
        &mut self,
        alloc: Global,
        call: Call,
        puts: &[Put],
        marks: &[u16],
    ) -> Result<(), Memory> {
        self.before = self.these.copy(alloc)?;
        match call {
            Call::Write => write_all(&mut self.these, puts),
            Call::WriteAny => write_any_of(&mut self.these, puts),
            Call::Exit => {
                self.others = written(alloc, &self.none, puts)?;
                Ok(())
            }
            Call::Join | Call::Widen | Call::Others => {
                self.others = written(alloc, &self.before, puts)?;
                self.combine(alloc, call, marks)
            }
        }
    }

    /// Joins or widens with the others, if a call does.
    fn combine(&mut self, alloc: Global, call: Call, marks: &[u16]) -> Result<(), Memory> {
        self.these = match call {
            Call::Join => self.before.join(alloc, &self.others)?,
            Call::Widen => self.before.widen(alloc, &self.others, marks)?,
            _ => return Ok(()),
        };
        Ok(())
    }

    /// Lets cells go on behind a handler whose exit has the others.
    pub fn resume(&mut self, alloc: Global, held: &Fourth, touched: &Ranges) -> Result<(), Memory> {
        self.these = resume_cells(alloc, &self.these, held, &self.others, touched)?;
        Ok(())
    }

    /// The cells of a name.
    pub fn named(&self, name: &str) -> &C {
        match name {
            "before" => &self.before,
            "others" => &self.others,
            _ => &self.these,
        }
    }
}

/// Whether what is read in so many places, and the cell that is next there, are the same.
fn is_same<C: Cells, D: Cells>(one: &C, other: &D, base: u16, places: u16) -> bool {
    for place in 0..places {
        let at = base.wrapping_add(place);
        let bytes = one.read(at, 1) == other.read(at, 1);
        let words = one.read(at, 2) == other.read(at, 2);
        if !bytes || !words || one.next(at as u32) != other.next(at as u32) {
            return false;
        }
    }
    true
}

/// Whether both are the same, and within the cells in front of the last call alike.
pub fn are_same<C: Cells, D: Cells>(
    one: &Kept<C>,
    other: &Kept<D>,
    base: u16,
    places: u16,
) -> bool {
    is_same(&one.these, &other.these, base, places)
        && is_same(&one.before, &other.before, base, places)
        && is_same(&one.others, &other.others, base, places)
        && one.these.within(&one.before) == other.these.within(&other.before)
        && one.before.within(&one.these) == other.before.within(&other.these)
}
