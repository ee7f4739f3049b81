//! The names of places.

ghost use Rattle.std.specs.Prelude.{◌≡◌, ◌<◌, ◌++◌, IfSome, OnOk};
ghost use Rattle.text_fields.specs.Fields.{one_named};
ghost use Rattle.mcs51_fields.specs.Parts as parts;
ghost use Rattle.mcs51_fields.specs.Places as fields;

use entry_value::Cell;
use std::alloc::AllocError;
use text_fields::{behind, has, number, push_name, push_number, read_name};
use value_text::Places;

/// The registers and the bytes of PC, by the numbers of their places.
const NAMES: [(u16, &str); 9] = [
    (0x1E0, "A"),
    (0x1F0, "B"),
    (0x182, "DPL"),
    (0x183, "DPH"),
    (0x1D0, "PSW"),
    (0x1A8, "IE"),
    (0x1B8, "IP"),
    (0x200, "PCL"),
    (0x201, "PCH"),
];

/// The address of a byte of RAM.
pub(crate) fn read_ram(text: &[u8]) -> Option<u16>
    ensures value { result ≡ fields.ram_field.value text.now }
    ensures below { IfSome result (λ at. at < 256) }
{
    number(behind(b"m", text)?, 2)
}

/// Adds the name of a byte of RAM.
pub(crate) fn push_ram(at: u16, out: &mut Vec<u8>) -> Result<(), AllocError>
    ensures { OnOk result (out.new.items ≡ out.old.items ++ fields.ram_field.text at) }
{
    out.push(b'm')?;
    push_number(out, at, 2)
}

/// The place of a register.
fn read_register(text: &[u8]) -> Option<u16>
    ensures { result ≡ (one_named fields.register_rows).value text.now }
{
    read_name(NAMES.as_slice(), text)
}

/// Adds the name of a register.
fn push_register(place: u16, out: &mut Vec<u8>) -> Result<(), AllocError>
    ensures { OnOk result (out.new.items ≡ out.old.items ++ (one_named fields.register_rows).text place) }
{
    push_name(NAMES.as_slice(), place, out)
}

/// The registers and the bytes of RAM that a relation may name.
#[derive(Clone, Copy)]
pub(crate) struct Remembered;

impl Places for Remembered {
    ghost use Rattle.mcs51_fields.specs.Places.{place_field};
    ghost use Rattle.mcs51_fields.specs.Parts.{is_chip_cell};

    ghost width = { λ places. 2 };

    ghost names = { λ places. place_field };

    ghost keeps = { λ places. is_chip_cell };

    fn digits(&self) -> u8 {
        2
    }

    fn names_are_exact(&self) {}

    fn read_place(&self, text: &[u8]) -> Option<u16> {
        if has(text, b'm') {
            read_ram(text)
        } else {
            read_register(text)
        }
    }

    fn push_place(&self, place: u16, out: &mut Vec<u8>) -> Result<(), AllocError> {
        if place < 256 {
            push_ram(place, out)
        } else {
            push_register(place, out)
        }
    }

    fn is_kept(&self, cell: &Cell) -> bool {
        cell.size == 1
    }
}
