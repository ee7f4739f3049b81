//! Lists of fields.

ghost use Rattle.std.specs.Prelude.{◌≡◌, ◌++◌, IfOk, OnOk};
ghost use Rattle.std.specs.Option.{option_map};
ghost use Rattle.text_fields.specs.Spelling.{Spelling};
ghost use Rattle.text_fields.specs.Lists.{listed, listed_or_mark};

use crate::reading::cut;
use std::alloc::{AllocError, Global};

/// A field whose values are read and written.
pub trait Field {
    /// Its values.
    type Value: Drop;

    /// The text of each value, and which value a text is.
    ghost field: { Self → Spelling Self.Value };

    /// The value of a text.
    fn read(&self, text: &[u8]) -> Option<Self::Value>
        ensures { result ≡ (field self.now).value text.now };

    /// Adds the text of a value.
    fn push(&self, value: &Self::Value, out: &mut Vec<u8>) -> Result<(), AllocError>
        ensures { OnOk result (out.new.items ≡ out.old.items ++ (field self.now).text value.now) };
}

/// The values of a list with this byte between each two.
pub fn read_list<F: Field>(
    alloc: Global,
    field: &F,
    between: u8,
    text: &[u8],
) -> Result<Option<Vec<F::Value>>, AllocError>
    ensures { IfOk result (λ found. option_map (λ values. values.items) found
        ≡ (listed (F.field field.now) between).value text.now) }
{
    let mut values = Vec::new(alloc);
    let mut rest = text;
    while let Some((first, behind)) = cut(rest, between) {
        let Some(value) = field.read(first) else {
            return Ok(None);
        };
        values.push(value)?;
        rest = behind;
    }
    let Some(value) = field.read(rest) else {
        return Ok(None);
    };
    values.push(value)?;
    Ok(Some(values))
}

/// Adds a list with this byte between each two of its values.
pub fn push_list<F: Field>(
    field: &F,
    between: u8,
    values: &[F::Value],
    out: &mut Vec<u8>,
) -> Result<(), AllocError>
    ensures { OnOk result (out.new.items ≡ out.old.items
        ++ (listed (F.field field.now) between).text values.now) }
{
    let [first, others @ ..] = values else {
        return Ok(());
    };
    field.push(first, out)?;
    for value in others {
        out.push(between)?;
        field.push(value, out)?;
    }
    Ok(())
}

/// The values of such a list, or none where the text is the mark.
pub fn read_list_or_mark<F: Field>(
    alloc: Global,
    field: &F,
    between: u8,
    mark: &[u8],
    text: &[u8],
) -> Result<Option<Vec<F::Value>>, AllocError>
    ensures { IfOk result (λ found. option_map (λ values. values.items) found
        ≡ (listed_or_mark (F.field field.now) between mark.now).value text.now) }
{
    if text == mark {
        return Ok(Some(Vec::new(alloc)));
    }
    read_list(alloc, field, between, text)
}

/// Adds such a list, or the mark for none.
pub fn push_list_or_mark<F: Field>(
    field: &F,
    between: u8,
    mark: &[u8],
    values: &[F::Value],
    out: &mut Vec<u8>,
) -> Result<(), AllocError>
    ensures { OnOk result (out.new.items ≡ out.old.items
        ++ (listed_or_mark (F.field field.now) between mark.now).text values.now) }
{
    if values.is_empty() {
        return out.extend_from_slice(mark);
    }
    push_list(field, between, values, out)
}
