//! What holds of all bytes and images.

ghost use Rattle.std.specs.Prelude.{◌≡◌, ◌<◌, ◌+◌, ◌++◌, ℕ, All, List, [], ◌∷◌, take, Option, Result, Some, length, false};
ghost use Rattle.image.specs.Image.{IsByte};
ghost use Rattle.mcs51_decode.specs.declared.instr.Instr.{Instr};
ghost use Rattle.mcs51_decode.specs.declared.refusal.NoInstr.{NoInstr};
ghost use Rattle.mcs51_decode.specs.Table.{Row, is_excluded, length_at, row_at};
ghost use Rattle.mcs51_decode.specs.Encoding.{bytes_of, length_of};
ghost use Rattle.mcs51_decode.specs.Fitting.{IsInstr};
ghost use Rattle.mcs51_decode.specs.Decoding.{instr_of_bytes};
ghost use Rattle.mcs51_decode.specs.Laws.{DecodingLaws};
ghost use Rattle.mcs51_decode.specs.Standing.{Decodes};

/// Bytes are at most one instruction, and are the bytes of that instruction, as many as its length says; none goes on
/// behind the bytes of another.
pub fn one_instruction()
    ensures same { (bytes : List ℕ) (instr other : Instr) →
        Row bytes instr → Row bytes other → instr ≡ other }
    ensures bytes { (bytes : List ℕ) (instr : Instr) → Row bytes instr → bytes ≡ bytes_of instr }
    ensures length { (bytes : List ℕ) (instr : Instr) → Row bytes instr → length bytes ≡ length_of instr }
    ensures whole { (bytes more : List ℕ) (instr other : Instr) →
        Row bytes instr → Row (bytes ++ more) other → length more ≡ 0 }
{}

/// Each opcode but the excluded one has instructions, which have as many bytes whatever stands behind it.
pub fn one_row_an_opcode()
    ensures row { (opcode first second : ℕ) →
        opcode < 256 → is_excluded opcode ≡ false → first < 256 → second < 256 →
        bytes_of (row_at opcode first second).1 ≡ take (length_at opcode) (opcode ∷ first ∷ second ∷ []) }
    ensures length { (opcode first second : ℕ) →
        opcode < 256 → is_excluded opcode ≡ false → first < 256 → second < 256 →
        (row_at opcode first second).0 ≡ length_at opcode }
{}

/// Each address of an image has exactly one answer: an instruction stands there, or a byte of it is lacking, or the opcode
/// is excluded.
pub fn one_of_three()
    ensures some { (image : List (Option ℕ)) (pc : ℕ) → length image ≡ 65536 → All IsByte image →
        (answer : Result (Instr × ℕ) NoInstr) × Decodes image pc answer }
    ensures one { (image : List (Option ℕ)) (pc : ℕ) (answer other : Result (Instr × ℕ) NoInstr) →
        Decodes image pc answer → Decodes image pc other → answer ≡ other }
{}

/// The decoder's answer as a function is the answer at each address, and no other is: an instruction of the table with
/// its length and its bytes, or a refusal.
pub fn decoding_laws()
    ensures { DecodingLaws }
{}

/// The instruction of some bytes as a function is the one whose row they are, and there is none where they are no row. An
/// instruction's bytes are that instruction.
pub fn bytes_of_one_instruction()
    ensures row { (bytes : List ℕ) (instr : Instr) → All (λ byte. byte < 256) bytes →
        instr_of_bytes bytes ≡ Some instr → Row bytes instr }
    ensures every { (bytes : List ℕ) (instr : Instr) → Row bytes instr → instr_of_bytes bytes ≡ Some instr }
    ensures again { (instr : Instr) → IsInstr instr → instr_of_bytes (bytes_of instr) ≡ Some instr }
{}
