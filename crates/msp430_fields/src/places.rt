//! The names of places.

ghost use Rattle.std.specs.Prelude.{◌≡◌};
ghost use Rattle.msp430_fields.specs.Parts as parts;

use entry_value::Cell;
use std::alloc::AllocError;
use text_fields::{push_name, read_name};
use value_text::Places;

/// PC, SR and R4 to R15, by their numbers.
const NAMES: [(u16, &str); 14] = [
    (0, "PC"),
    (2, "SR"),
    (4, "R4"),
    (5, "R5"),
    (6, "R6"),
    (7, "R7"),
    (8, "R8"),
    (9, "R9"),
    (10, "R10"),
    (11, "R11"),
    (12, "R12"),
    (13, "R13"),
    (14, "R14"),
    (15, "R15"),
];

/// The registers that a relation may name.
#[derive(Clone, Copy)]
pub(crate) struct Registers;

/// Whether a cell of two bytes has an even place, and that of one byte no relation.
fn is_chip_cell(cell: &Cell) -> bool
    ensures { result ≡ parts.is_chip_cell cell.now }
{
    if cell.size == 2 {
        cell.place % 2 == 0
    } else {
        cell.word.entry.is_none()
    }
}

impl Places for Registers {
    ghost use Rattle.msp430_fields.specs.Places.{place_field};
    ghost use Rattle.msp430_fields.specs.Parts.{is_chip_cell};

    ghost width = { λ places. 4 };

    ghost names = { λ places. place_field };

    ghost keeps = { λ places. is_chip_cell };

    fn digits(&self) -> u8 {
        4
    }

    fn names_are_exact(&self) {}

    fn read_place(&self, text: &[u8]) -> Option<u16> {
        read_name(NAMES.as_slice(), text)
    }

    fn push_place(&self, place: u16, out: &mut Vec<u8>) -> Result<(), AllocError> {
        push_name(NAMES.as_slice(), place, out)
    }

    fn is_kept(&self, cell: &Cell) -> bool {
        is_chip_cell(cell)
    }
}
