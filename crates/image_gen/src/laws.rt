//! What the programs have.

ghost use Rattle.std.specs.Prelude.{ℕ, ◌<◌, flat_map};
ghost use Rattle.image_gen.specs.Made.{StandsAt, low_first, msp430_function, msp430_function_at, msp430_program, mcs51_function, mcs51_function_at, mcs51_program};

/// Each function stands at the address that is called for it.
pub fn calls_reach_functions()
    ensures msp430 { (number i : ℕ) → i < number
        → StandsAt 0x4000 (msp430_program number) (msp430_function_at number i) (flat_map low_first (msp430_function i)) }
    ensures mcs51 { (number i : ℕ) → i < number
        → StandsAt 0x0030 (mcs51_program number) (mcs51_function_at number i) (mcs51_function i) }
{}
