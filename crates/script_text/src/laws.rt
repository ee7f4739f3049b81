//! What holds of all texts.

ghost use Rattle.std.specs.Prelude.{◌++◌, ℕ, List};
ghost use Rattle.script_text.specs.Reading.{IsRefusedWithin};

/// A refused line that is whole stays the first one, however the text goes on.
pub fn refusals_stay()
    ensures { (text more : List ℕ) (line : ℕ) → IsRefusedWithin text line → IsRefusedWithin (text ++ more) line }
{}
