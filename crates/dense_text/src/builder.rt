//! A text that is built part by part.

ghost use Rattle.std.specs.Prelude.{◌≡◌, ◌<◌, ◌++◌, [], IfOk, OnOk};

use crate::text::Text;
use no_memory::Memory;
use std::alloc::Global;
use std::marker::Model;

/// How many hashes are told apart.
const SLOTS: usize = 65536;

/// A text that grows by parts, of which those that came before are kept once, mostly.
#[derive(Drop)]
pub struct TextBuilder {
    text: Text,
    /// Where the last part that was kept with each hash stands, as a guess: each is compared before it is used.
    places: Vec<u32>,
}

impl Model for TextBuilder {
    ghost use Rattle.std.specs.Prelude.{◌≡◌, ℕ, List, length};

    ghost Value = { List ℕ };

    ghost view = { λ builder. builder.text };

    ghost invariant = { λ builder. length builder.places.items ≡ 65536 };
}

/// A number of a part, which different parts seldom share.
fn hash_of(part: &[u8]) -> usize
    ensures { result < 65536 }
{
    let mut hash = 0x811C_9DC5_u32;
    for byte in part {
        hash = (hash ^ u32::from(*byte)).wrapping_mul(0x0100_0193);
    }
    (hash ^ hash >> 16) as usize % SLOTS
}

impl TextBuilder {
    /// The empty text.
    pub fn new(alloc: Global) -> Result<TextBuilder, Memory>
        ensures { IfOk result (λ builder. builder ≡ []) }
    {
        Ok(TextBuilder {
            text: Text::from_bytes(Vec::new(alloc)),
            places: vec![in alloc; 0; SLOTS]?,
        })
    }

    /// Adds a part.
    pub fn push_part(&mut self, part: &[u8]) -> Result<(), Memory>
        ensures { OnOk result (self.new ≡ self.old ++ part.now) }
    {
        let slot = hash_of(part);
        if self.text.repeat(self.places[slot] as usize, part)? {
            return Ok(());
        }
        let start = self.text.append(part)?;
        // Parts behind 4 GiB aren't found again.
        if let Ok(place) = u32::try_from(start) {
            self.places[slot] = place;
        }
        Ok(())
    }

    /// The text that was built.
    pub fn into_text(self) -> Text
        ensures { result ≡ self }
    {
        self.text
    }
}
