//! What holds of all steps, and of all places of operands.

ghost use Rattle.std.specs.Prelude.{◌≡◌, ◌-◌, ◌<◌, ◌≤◌, ℕ, All, IsSome, List, Some, length, slice_index};
ghost use Rattle.image.specs.Image.{IsByte};
ghost use Rattle.msp430_decode.specs.declared.instr.Instr.{Instr as AnInstr};
ghost use Rattle.msp430_decode.specs.declared.refusal.NoInstr.TheVariants.{Excluded, OffImage};
ghost use Rattle.msp430_decode.specs.Standing.{IsExcluded, Lacks, Stands};
ghost use Rattle.msp430_chip.specs.declared.device.Device.{Device as ADevice};
ghost use Rattle.msp430_chip.specs.declared.state.ChipState.{ChipState as AState};
ghost use Rattle.msp430_chip.specs.Outcome.{Outcome};
ghost use Rattle.choosing.specs.Outcome.Outcome.{Wild};
ghost use Rattle.msp430_chip.specs.declared.state.Wild.TheVariants.{NoInstr};
ghost use Rattle.msp430_chip.specs.Interrupts.{coming, enter};
ghost use Rattle.msp430_chip.specs.Laws.{PlaceLaws, StepLaws};
ghost use Rattle.msp430_chip.specs.State.{IsResetOf, first_state, register_of};
ghost use Rattle.msp430_chip.specs.Step.{Step, executed, interrupt_option, step_of};

use msp430_decode::decoding_laws;

/// What a step leads to, as a relation in which no choices stand (`specs/Leading.antt`). It needs a front of the choices and
/// leaves the others, and no list of choices has two fronts with a step. It keeps the form of states.
pub fn step_laws()
    ensures { StepLaws }
{
    decoding_laws();
}

/// Seven choices are enough for any step, and each step is taken by choices of 16 bits.
pub fn steps_are_taken()
    ensures some { (device : ADevice) (s : AState) (choices : List ℕ) → 7 ≤ length choices
        → IsSome (step_of device s choices) }
    ensures small { (device : ADevice) (s : AState) (choices : List ℕ) (outcome : Outcome AState) → Step device s choices outcome →
        (few : List ℕ) × All (λ choice. choice < 65536) few × Step device s few outcome }
{}

/// A device with a program has a state behind a reset: among others, the one with 0 in all that a reset leaves open.
pub fn a_reset_exists()
    ensures { (device : ADevice) → All IsByte device.image → IsResetOf device (first_state device) }
{}

/// The instruction table decides a step, where the choices let no interrupt come: the instruction that stands at PC runs,
/// and where a byte of it lacks, or the first word is excluded, the state leaves the model. An interrupt that comes is
/// entered.
pub fn the_table_decides()
    ensures runs { (device : ADevice) (s : AState) (choices left : List ℕ) (instr : AnInstr) (len : ℕ) →
        length device.image ≡ 65536 → All IsByte device.image → interrupt_option device s choices ≡ Some (0, left) →
        Stands device.image (register_of s 0) instr len → step_of device s choices ≡ executed device s instr len left }
    ensures lacks { (device : ADevice) (s : AState) (choices left : List ℕ) (at : ℕ) →
        length device.image ≡ 65536 → All IsByte device.image → interrupt_option device s choices ≡ Some (0, left) →
        Lacks device.image (register_of s 0) at → step_of device s choices ≡ Some (Wild (NoInstr (OffImage at)), left) }
    ensures excluded { (device : ADevice) (s : AState) (choices left : List ℕ) →
        length device.image ≡ 65536 → All IsByte device.image → interrupt_option device s choices ≡ Some (0, left) →
        IsExcluded device.image (register_of s 0) → step_of device s choices ≡ Some (Wild (NoInstr Excluded), left) }
    ensures enters { (device : ADevice) (s : AState) (choices left : List ℕ) (option : ℕ) →
        interrupt_option device s choices ≡ Some (option, left) → 0 < option →
        step_of device s choices ≡ enter device s (slice_index (coming device s) (option - 1)) left }
{
    decoding_laws();
}

/// A register is PC, SP, SR or R3, or it is one of R4 to R15, which are alike. On a device with RAM the access at an address is
/// made in memory, and that of a word at an even address.
pub fn place_laws()
    ensures { PlaceLaws }
{}
