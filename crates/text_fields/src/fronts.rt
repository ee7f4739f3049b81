//! Named fields, and fields in front of others.

ghost use Rattle.std.specs.Prelude.{◌≡◌, ◌++◌, ◌∷◌, [], OnOk};
ghost use Rattle.std.specs.Option.{option_map};
ghost use Rattle.text_fields.specs.Fields.{named};
ghost use Rattle.text_fields.specs.Fronts.{in_front};

use crate::lists::Field;
use crate::reading::{behind, cut};
use std::alloc::AllocError;

/// The value of a field behind its name.
pub fn read_named<F: Field>(field: &F, name: &[u8], text: &[u8]) -> Option<F::Value>
    ensures { result ≡ (named (F.field field.now) name.now).value text.now }
{
    field.read(behind(name, text)?)
}

/// The value of a field behind its name in front of the first such byte, and the text behind the byte.
pub fn read_front<'a, F: Field>(
    field: &F,
    name: &[u8],
    at: u8,
    text: &'a [u8],
) -> Option<(F::Value, &'a [u8])>
    ensures { option_map (λ x. (x.0, x.1.now)) result
        ≡ in_front at (named (F.field field.now) name.now) text.now }
{
    let (first, rest) = cut(text, at)?;
    Some((read_named(field, name, first)?, rest))
}

/// Adds a name, and the value behind it.
pub fn push_named<F: Field>(
    field: &F,
    name: &[u8],
    value: &F::Value,
    out: &mut Vec<u8>,
) -> Result<(), AllocError>
    ensures { OnOk result (out.new.items ≡ out.old.items
        ++ (named (F.field field.now) name.now).text value.now) }
{
    out.extend_from_slice(name)?;
    field.push(value, out)
}

/// Adds a name, the value behind it, and a byte.
pub fn push_front<F: Field>(
    field: &F,
    name: &[u8],
    at: u8,
    value: &F::Value,
    out: &mut Vec<u8>,
) -> Result<(), AllocError>
    ensures { OnOk result (out.new.items ≡ out.old.items
        ++ ((named (F.field field.now) name.now).text value.now ++ at ∷ [])) }
{
    push_named(field, name, value, out)?;
    out.push(at)?;
    Ok(())
}
