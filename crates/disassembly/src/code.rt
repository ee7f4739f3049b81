//! What a disassembly asks of a chip.

ghost use Rattle.std.specs.Prelude.{◌≡◌, ◌⊎◌, ◌%◌, ℕ, List, Option};
ghost use Rattle.disassembly.specs.Listing.{shown};

use arrayvec::{ArrayString, ArrayVec};
use image::Image;

/// An instruction that stands in an image.
#[derive(Drop)]
pub struct Line {
    /// Its bytes, upward from its address.
    pub bytes: ArrayVec<u8, 6>,
    pub text: ArrayString<40>,
}

/// The instructions of a chip, as they stand in an image.
pub trait Code {
    /// Instructions stand at the multiples of this: 1 for bytes, and 2 for words.
    ghost unit: { ℕ };

    /// The bytes and the text of the instruction that stands at an address, or that none does.
    ghost reads: { List (Option ℕ) → ℕ → Option (List ℕ × List ℕ) → Type 0 };

    /// One byte, or two.
    fn unit() -> u32
        ensures value { result ≡ unit }
        ensures allowed { (unit ≡ 1) ⊎ (unit ≡ 2) };

    /// What stands at an address.
    fn line_at(image: &Image, at: u16) -> Option<Line>
        requires { at % unit ≡ 0 }
        ensures { reads image.now at (shown result) };

    /// There is one answer at each address.
    fn one_answer()
        ensures { (image : List (Option ℕ)) (at : ℕ) (answer other : Option (List ℕ × List ℕ)) →
            reads image at answer → reads image at other → answer ≡ other };
}
