//! What the texts of made programs have.

ghost use Rattle.std.specs.Prelude.{ℕ, ◌≤◌, List, Option, length};
ghost use Rattle.image.specs.declared.tail.Tail.TheVariants.{Blank};
ghost use Rattle.ihex_read.specs.ImageText.{Denotes};
ghost use Rattle.text_lines.specs.Lines.{lines_of};
ghost use Rattle.image.specs.declared.chip_name.ChipName.{ChipName as AChipName};
ghost use Rattle.image_gen.specs.Made.{made_image};
ghost use Rattle.made_programs.specs.Chips.{rules_of};

use ihex_read::image_or_fault;

/// The text of each program of at most 2,000 functions denotes an image under the rules of its chip, and has at most 4 MiB.
pub fn made_texts_denote()
    ensures image { (chip : AChipName) (number : ℕ) → number ≤ 2000
        → (image : List (Option ℕ)) × Denotes (rules_of chip) Blank (lines_of (made_image chip number)) image }
    ensures size { (chip : AChipName) (number : ℕ) → number ≤ 2000 → length (made_image chip number) ≤ 4194304 }
{
    image_or_fault();
}
