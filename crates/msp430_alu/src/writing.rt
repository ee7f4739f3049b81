//! Writes to registers and flags of a state.

ghost use Rattle.std.specs.Prelude.{◌≡◌, ◌≤◌, ◌<◌};
ghost use Rattle.msp430_chip.specs.Operands as chip;
ghost use Rattle.msp430_alu.specs.Operands as operands;
ghost use Rattle.msp430_alu.specs.Registers as registers;

use crate::registers::{even_parts, plain, register_word};
use entry_value::{Cells, Word};
use msp430_decode::{Register, Source, Width};
use msp430_results::FlagBits;
use msp430_state::{FlagFact, State};
use value_set::Vs16;

/// A fact, unless it is of this register.
fn fact_without(register: u8, fact: Option<FlagFact>) -> Option<FlagFact>
    ensures { result ≡ registers.fact_without register fact }
{
    match fact {
        Some(fact) if fact.register != register => Some(fact),
        _ => None,
    }
}

/// Gives one of R4 to R15 another value.
fn set_word<M: Cells>(state: &mut State<M>, register: u8, word: Word)
    requires above { 4 ≤ register }
    requires below { register < 16 }
    ensures { state.new ≡ registers.with_word state.old register word }
{
    state.registers[register as usize - 4] = word;
    state.fact = fact_without(register, state.fact);
}

/// Writes a word to a register. Bit 0 of SP is always 0, a write to PC is a jump, SR has writes of its own, and R3 holds
/// nothing.
pub fn put_register<M: Cells>(state: &mut State<M>, register: Register, word: Word)
    ensures { state.new ≡ registers.put_register state.old register word }
{
    match register {
        Register::Sp => state.sp = even_parts(&word.set),
        Register::Pc | Register::Sr | Register::R3 => {}
        _ => set_word(state, register.number(), word),
    }
}

/// Sets C, Z, N and V, the bits 0, 1, 2 and 8 of SR. They drop its relation and the fact.
pub fn set_flag_bits<M: Cells>(state: &mut State<M>, flags: Option<FlagBits>)
    ensures { state.new ≡ registers.with_flag_bits state.old flags }
{
    if let Some(flags) = flags {
        state.status.bits[0] = flags.carry;
        state.status.bits[1] = flags.zero;
        state.status.bits[2] = flags.negative;
        state.status.bits[8] = flags.overflow;
        state.status.entry = None;
        state.fact = None;
    }
}

/// By how much `@Rn+` grows its register: SP by 2 for bytes as well.
fn growth(width: Width, register: Register) -> u16
    ensures { result ≡ chip.growth width register }
{
    match (width, register) {
        (Width::Word, _) | (Width::Byte, Register::Sp) => 2,
        _ => 1,
    }
}

/// Grows the register of `@Rn+`, which then has no relation.
pub fn grow<M: Cells>(state: &mut State<M>, counted: &Vs16, width: Width, source: Source)
    ensures { state.new ≡ operands.grown_known state.old counted.now width source }
{
    if let Source::IndirectIncrement(register) = source {
        let more = Vs16::one(growth(width, register));
        let set = register_word(state, counted, register).set.add(&more);
        put_register(state, register, plain(set));
    }
}
