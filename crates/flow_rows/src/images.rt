//! Images that were read.

ghost use Rattle.std.specs.Prelude.{IfSome};
ghost use Rattle.image.specs.Kept.{IsRamRange, IsReadUnder};

use ihex_read::{MOST_BYTES, Reader, Tail};
use image::{Image, Rules};
use std::alloc::Global;

/// The image of a text, if it has one.
pub fn image_of(alloc: Global, rules: Rules, text: &str) -> Option<Image>
    requires { IsRamRange rules }
    ensures { IfSome result (IsReadUnder rules) }
{
    if text.len() <= MOST_BYTES
        && let Ok(mut reader) = Reader::new(alloc, rules, Tail::Blank)
        && let Ok(_used) = reader.feed(text.as_bytes())
    {
        return reader.end().ok();
    }
    None
}
