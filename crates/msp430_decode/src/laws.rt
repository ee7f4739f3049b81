//! What holds of all bytes, words and images.

ghost use Rattle.std.specs.Prelude.{◌≡◌, ◌<◌, ◌+◌, ◌*◌, ◌∷◌, ℕ, All, List, Option, Result, length, true, false};
ghost use Rattle.image.specs.Image.{IsByte};
ghost use Rattle.msp430_decode.specs.declared.instr.Instr.{Instr};
ghost use Rattle.msp430_decode.specs.declared.refusal.NoInstr.{NoInstr};
ghost use Rattle.msp430_decode.specs.Table.{Row};
ghost use Rattle.msp430_decode.specs.Excluded.{is_excluded};
ghost use Rattle.msp430_decode.specs.Laws.{BytesOfOneInstruction, DecodingLaws, OneInstruction};
ghost use Rattle.msp430_decode.specs.Standing.{Decodes};

/// Bytes are at most one instruction, the bytes of an instruction are as many as its length says, and none goes on
/// behind the bytes of another.
pub fn one_instruction()
    ensures { OneInstruction }
{}

/// Each address of an image has exactly one answer: an instruction stands there, or a byte of it is lacking, or the
/// first word is excluded.
pub fn one_of_three()
    ensures some { (image : List (Option ℕ)) (pc : ℕ) → length image ≡ 65536 → All IsByte image →
        (answer : Result (Instr × ℕ) NoInstr) × Decodes image pc answer }
    ensures one { (image : List (Option ℕ)) (pc : ℕ) (answer other : Result (Instr × ℕ) NoInstr) →
        Decodes image pc answer → Decodes image pc other → answer ≡ other }
{}

/// No instruction begins with an excluded word, and one begins with each other word.
pub fn excluded_words()
    ensures excluded { (low high : ℕ) (more : List ℕ) (instr : Instr) → low < 256 → high < 256 →
        is_excluded (low + 256 * high) ≡ true → ¬ Row (low ∷ high ∷ more) instr }
    ensures others { (low high : ℕ) → low < 256 → high < 256 → is_excluded (low + 256 * high) ≡ false →
        (more : List ℕ) × (instr : Instr) × Row (low ∷ high ∷ more) instr }
{}

/// The decoder's answer as a function is the answer at each address, and no other is: an instruction of the table with
/// its length and its bytes, or a refusal.
pub fn decoding_laws()
    ensures { DecodingLaws }
{}

/// The instruction of some bytes as a function is the one whose row they are, and there is none where they are no row. An
/// instruction's bytes are that instruction.
pub fn bytes_of_one_instruction()
    ensures { BytesOfOneInstruction }
{}
