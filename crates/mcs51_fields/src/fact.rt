//! What is known of the accumulator and of CY beside their values.

ghost use Rattle.std.specs.Prelude.{◌≡◌, ◌++◌, OnOk};
ghost use Rattle.text_fields.specs.Numbers.{hex_number};
ghost use Rattle.mcs51_fields.specs.Facts as fields;

use crate::places::{push_ram, read_ram};
use mcs51_state::{CarryFact, Compared, LinearFact};
use std::alloc::AllocError;
use text_fields::{Field, cut, number, push_number};

/// A byte.
fn read_byte(text: &[u8]) -> Option<u8>
    ensures { result ≡ (hex_number 2).value text.now }
{
    let byte = number(text, 2)?;
    Some(byte as u8)
}

/// What the byte is multiplied by, and what is added.
fn read_factor(text: &[u8]) -> Option<(u8, u8)>
    ensures { result ≡ fields.factor_field.value text.now }
{
    let (factor, added) = cut(text, b'+')?;
    Some((read_byte(factor)?, read_byte(added)?))
}

/// What the accumulator is by a byte of RAM.
fn read_linear(text: &[u8]) -> Option<LinearFact>
    ensures { result ≡ fields.some_linear.value text.now }
{
    let (place, rest) = cut(text, b'*')?;
    let place = read_byte(place)?;
    let (factor, added) = read_factor(rest)?;
    Some(LinearFact {
        place,
        factor,
        added,
    })
}

/// Adds such a fact.
fn push_linear(fact: &LinearFact, out: &mut Vec<u8>) -> Result<(), AllocError>
    ensures { OnOk result (out.new.items ≡ out.old.items ++ fields.some_linear.text fact.now) }
{
    push_number(out, fact.place as u16, 2)?;
    out.push(b'*')?;
    push_number(out, fact.factor as u16, 2)?;
    out.push(b'+')?;
    push_number(out, fact.added as u16, 2)
}

/// Perhaps what the accumulator is.
#[derive(Clone, Copy)]
pub(crate) struct LinearField;

impl Field for LinearField {
    type Value = Option<LinearFact>;

    ghost use Rattle.mcs51_fields.specs.Facts.{linear_field};

    ghost field = { λ fact. linear_field };

    fn read(&self, text: &[u8]) -> Option<Option<LinearFact>> {
        if text == b"-".as_slice() {
            return Some(None);
        }
        Some(Some(read_linear(text)?))
    }

    fn push(&self, value: &Option<LinearFact>, out: &mut Vec<u8>) -> Result<(), AllocError> {
        match value {
            None => {
                out.push(b'-')?;
                Ok(())
            }
            Some(fact) => push_linear(fact, out),
        }
    }
}

/// The accumulator, or a byte of RAM.
fn read_compared(text: &[u8]) -> Option<Compared>
    ensures { result ≡ fields.compared_field.value text.now }
{
    if text == b"A".as_slice() {
        return Some(Compared::Accumulator);
    }
    let at = read_ram(text)?;
    Some(Compared::Ram(at as u8))
}

/// Adds what is compared.
fn push_compared(compared: &Compared, out: &mut Vec<u8>) -> Result<(), AllocError>
    ensures { OnOk result (out.new.items ≡ out.old.items ++ fields.compared_field.text compared.now) }
{
    match compared {
        Compared::Accumulator => {
            out.push(b'A')?;
            Ok(())
        }
        Compared::Ram(at) => push_ram(*at as u16, out),
    }
}

/// What CY says of a byte.
fn read_carry(text: &[u8]) -> Option<CarryFact>
    ensures { result ≡ fields.some_carry.value text.now }
{
    let (compared, bound) = cut(text, b'<')?;
    let compared = read_compared(compared)?;
    let bound = read_byte(bound)?;
    Some(CarryFact { compared, bound })
}

/// Adds such a fact.
fn push_carry(fact: &CarryFact, out: &mut Vec<u8>) -> Result<(), AllocError>
    ensures { OnOk result (out.new.items ≡ out.old.items ++ fields.some_carry.text fact.now) }
{
    push_compared(&fact.compared, out)?;
    out.push(b'<')?;
    push_number(out, fact.bound as u16, 2)
}

/// Perhaps what CY says.
#[derive(Clone, Copy)]
pub(crate) struct CarryField;

impl Field for CarryField {
    type Value = Option<CarryFact>;

    ghost use Rattle.mcs51_fields.specs.Facts.{carry_field};

    ghost field = { λ fact. carry_field };

    fn read(&self, text: &[u8]) -> Option<Option<CarryFact>> {
        if text == b"-".as_slice() {
            return Some(None);
        }
        Some(Some(read_carry(text)?))
    }

    fn push(&self, value: &Option<CarryFact>, out: &mut Vec<u8>) -> Result<(), AllocError> {
        match value {
            None => {
                out.push(b'-')?;
                Ok(())
            }
            Some(fact) => push_carry(fact, out),
        }
    }
}
