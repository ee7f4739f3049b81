//! What every list of lines has.

ghost use Rattle.std.specs.Prelude.{◌≡◌, ◌⊎◌, ◌++◌, ℕ, All, List, Option, length};
ghost use Rattle.ihex_read.specs.declared.fault.HexFault.{HexFault};
ghost use Rattle.image.specs.declared.rule_set.Rules.{Rules};
ghost use Rattle.image.specs.declared.tail.Tail.{Tail};
ghost use Rattle.image.specs.declared.tail.Tail.TheVariants.{Second};
ghost use Rattle.image.specs.Image.{IsByte};
ghost use Rattle.ihex_read.specs.ImageText.{Denotes, FirstFault, GoesOnBehind};
ghost use Rattle.image.specs.Kept.{IsReadUnder};
ghost use Rattle.text_lines.specs.Lines.{lines_of};
ghost use Rattle.ihex_read.specs.Reading.{FaultsWithin, HasEnded};

/// Every list of lines has an image or a first fault, or goes on behind the end record's line where a second text is expected;
/// never both, and no second one of either.
pub fn image_or_fault()
    ensures one { (rules : Rules) (tail : Tail) (lines : List (List ℕ)) →
        ((image : List (Option ℕ)) × Denotes rules tail lines image)
        ⊎ ((line : ℕ) × (fault : HexFault) × FirstFault rules tail lines line fault) ⊎ GoesOnBehind rules tail lines }
    ensures not_both { (rules : Rules) (tail : Tail) (lines : List (List ℕ)) (image : List (Option ℕ)) (line : ℕ) (fault : HexFault) →
        Denotes rules tail lines image → ¬ FirstFault rules tail lines line fault }
    ensures one_image { (rules : Rules) (tail : Tail) (lines : List (List ℕ)) (image other : List (Option ℕ)) →
        Denotes rules tail lines image → Denotes rules tail lines other → image ≡ other }
    ensures one_fault { (rules : Rules) (tail : Tail) (lines : List (List ℕ)) (line other_line : ℕ) (fault other : HexFault) →
        FirstFault rules tail lines line fault → FirstFault rules tail lines other_line other → (line ≡ other_line) × (fault ≡ other) }
{}

/// An image that lines denote has a byte or nothing at each of its 65,536 addresses.
pub fn images_have_bytes()
    ensures { (rules : Rules) (tail : Tail) (lines : List (List ℕ)) (image : List (Option ℕ)) →
        Denotes rules tail lines image → (length image ≡ 65536) × All IsByte image }
{}

/// An image that lines denote keeps the rules under which they are read.
pub fn images_keep_rules()
    ensures { (rules : Rules) (tail : Tail) (lines : List (List ℕ)) (image : List (Option ℕ)) →
        Denotes rules tail lines image → IsReadUnder rules image }
{}

/// A first faulty line that is whole stays the first one, with its fault, however the text goes on.
pub fn whole_faults_stay()
    ensures { (rules : Rules) (tail : Tail) (text more : List ℕ) (line : ℕ) (fault : HexFault) →
        FaultsWithin rules tail text line fault → FaultsWithin rules tail (text ++ more) line fault }
{}

/// A text that has ended, where a second text is expected behind it, stays so however the text goes on, and has no fault.
pub fn ended_texts_stay()
    ensures ended { (rules : Rules) (text more : List ℕ) → HasEnded rules text → HasEnded rules (text ++ more) }
    ensures faultless { (rules : Rules) (text : List ℕ) (line : ℕ) (fault : HexFault) →
        HasEnded rules text → ¬ FirstFault rules Second (lines_of text) line fault }
{}
