//! A field of a state that isn't within that of another.

ghost use Rattle.std.specs.Prelude.{◌≡◌, IfOk};
ghost use Rattle.node_fields.specs.Outside as fields;

use call_context::Sequence;
use no_memory::Memory;
use std::alloc::Global;
use text_fields::Field;

/// The first field of a state that isn't within that of another.
#[derive(Drop)]
pub struct Outside {
    /// Its name, as `SP`.
    pub field: Sequence<u8>,
    /// What the state has there, as it is written.
    pub posted: Sequence<u8>,
    /// What the other one has there.
    pub held: Sequence<u8>,
}

/// A field with this name and these texts.
pub fn named_field(
    alloc: Global,
    name: &[u8],
    posted: Vec<u8>,
    held: Vec<u8>,
) -> Result<Outside, Memory>
    ensures { IfOk result (λ outside. outside ≡ record { field = name.now; posted = posted.items; held = held.items }) }
{
    let mut field = Vec::new(alloc);
    field.extend_from_slice(name)?;
    Ok(Outside {
        field: Sequence::from_vec(field),
        posted: Sequence::from_vec(posted),
        held: Sequence::from_vec(held),
    })
}

/// A field with this name and the texts of two values.
pub fn told<F: Field>(
    alloc: Global,
    field: &F,
    name: &[u8],
    new: &F::Value,
    held: &F::Value,
) -> Result<Outside, Memory>
    ensures { IfOk result (λ outside. outside ≡ fields.told name.now (F.field field.now).text new.now held.now) }
{
    let mut posted = Vec::new(alloc);
    field.push(new, &mut posted)?;
    let mut kept = Vec::new(alloc);
    field.push(held, &mut kept)?;
    named_field(alloc, name, posted, kept)
}
