//! What holds of all steps.

ghost use Rattle.std.specs.Prelude.{◌≡◌, ◌-◌, ◌<◌, ◌≤◌, ℕ, All, IsSome, List, Option, Some, length, slice_index};
ghost use Rattle.image.specs.Image.{IsByte};
ghost use Rattle.mcs51_decode.specs.declared.instr.Instr.{Instr as AnInstr};
ghost use Rattle.mcs51_decode.specs.declared.refusal.NoInstr.TheVariants.{Excluded, OffImage};
ghost use Rattle.mcs51_decode.specs.Standing.{HasExcluded, Lacks, Stands};
ghost use Rattle.choosing.specs.Outcome.Outcome.{Wild};
ghost use Rattle.mcs51_chip.specs.declared.state.ChipState.{ChipState as AState};
ghost use Rattle.mcs51_chip.specs.Interrupts.{coming};
ghost use Rattle.mcs51_chip.specs.State.{IsReset, first_state};
ghost use Rattle.mcs51_chip.specs.Step.{Outcome, Step, entered, executed, interrupt_option, step_of};
ghost use Rattle.mcs51_chip.specs.Laws.{FormatsLead, StepLaws};

use mcs51_decode::decoding_laws;

/// What a step leads to, as a relation in which no choices stand (`specs/Leading.antt`). It needs a front of the choices and
/// leaves the others, and no list of choices has two fronts with a step. It keeps the form of states.
pub fn step_laws()
    ensures { StepLaws }
{
    decoding_laws();
}

/// Three choices are enough for any step, and each step is taken by choices of 16 bits.
pub fn steps_are_taken()
    ensures some { (image : List (Option ℕ)) (s : AState) (choices : List ℕ) → 3 ≤ length choices
        → IsSome (step_of image s choices) }
    ensures small { (image : List (Option ℕ)) (s : AState) (choices : List ℕ) (outcome : Outcome) → Step image s choices outcome →
        (few : List ℕ) × All (λ choice. choice < 65536) few × Step image s few outcome }
{}

/// There is a state behind a reset: among others, the one with 0 in RAM.
pub fn a_reset_exists()
    ensures { IsReset first_state }
{}

/// The instruction table decides a step, where the choices let no interrupt come: the instruction that stands at PC runs,
/// and where a byte of it lacks, or the opcode is the excluded one, the state leaves the model. An interrupt that comes is
/// entered.
pub fn the_table_decides()
    ensures runs { (image : List (Option ℕ)) (s : AState) (choices left : List ℕ) (instr : AnInstr) (len : ℕ) →
        length image ≡ 65536 → All IsByte image → interrupt_option s choices ≡ Some (0, left) →
        Stands image s.pc instr len → step_of image s choices ≡ executed image s instr left }
    ensures lacks { (image : List (Option ℕ)) (s : AState) (choices left : List ℕ) (at : ℕ) →
        length image ≡ 65536 → All IsByte image → interrupt_option s choices ≡ Some (0, left) →
        Lacks image s.pc at → step_of image s choices ≡ Some (Wild (OffImage at), left) }
    ensures excluded { (image : List (Option ℕ)) (s : AState) (choices left : List ℕ) →
        length image ≡ 65536 → All IsByte image → interrupt_option s choices ≡ Some (0, left) →
        HasExcluded image s.pc → step_of image s choices ≡ Some (Wild Excluded, left) }
    ensures enters { (image : List (Option ℕ)) (s : AState) (choices left : List ℕ) (option : ℕ) →
        interrupt_option s choices ≡ Some (option, left) → 0 < option →
        step_of image s choices ≡ Some (entered s (slice_index (coming s) (option - 1)), left) }
{
    decoding_laws();
}

/// What the formats of instructions come to, as relations in which no choices stand (`specs/Leading.antt`).
pub fn formats_lead()
    ensures { FormatsLead }
{}
