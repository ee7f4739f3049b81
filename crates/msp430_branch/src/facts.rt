//! The fact behind CMP and SUB.

ghost use Rattle.std.specs.Prelude.{◌≡◌, ◌%◌, ◌<◌, if◌then◌else◌, IfSome};
ghost use Rattle.entry_value.specs.Cells.{any_of};
ghost use Rattle.msp430_chip.specs.Arithmetic as chip;
ghost use Rattle.msp430_branch.specs.Facts as facts;

use entry_value::Cells;
use msp430_decode::{Destination, Operation, Register, Source, Width};
use msp430_state::{FlagFact, State};
use value_set::Vs16;

/// The number that a source is, if it is one.
fn constant_of(source: Source) -> Option<u16>
    ensures { result ≡ facts.constant_of source }
{
    match source {
        Source::Immediate(value) => Some(value),
        Source::Constant(constant) => Some(constant.value()),
        _ => None,
    }
}

/// The number of a register that is one of R4 to R15.
fn general_number(register: Register) -> Option<u8>
    ensures value { result ≡ facts.general_number register }
    ensures above { IfSome result (λ number. 3 < number) }
    ensures below { IfSome result (λ number. number < 16) }
{
    match register {
        Register::Pc | Register::Sp | Register::Sr | Register::R3 => None,
        _ => Some(register.number()),
    }
}

/// Which of R4 to R15 a destination is, if it is one.
fn compared_register(destination: Destination) -> Option<u8>
    ensures value { result ≡ facts.compared_register destination }
    ensures above { IfSome result (λ number. 3 < number) }
    ensures below { IfSome result (λ number. number < 16) }
{
    match destination {
        Destination::Register(register) => general_number(register),
        _ => None,
    }
}

/// All bytes.
fn bytes() -> Vs16
    ensures { result ≡ any_of 1 }
{
    match Vs16::run(0, 1, 0x100) {
        Some(set) => set,
        None => unreachable!(),
    }
}

/// Whether a register with these values may have a fact: of bytes only where its high byte is 0.
fn is_told(width: Width, set: &Vs16) -> bool
    ensures { result ≡ facts.is_told width set.now }
{
    match width {
        Width::Word => true,
        Width::Byte => set.within(&bytes()),
    }
}

/// A number, or its low byte.
fn of_width(width: Width, number: u16) -> u16
    ensures { result ≡ number % chip.modulus width }
{
    match width {
        Width::Word => number,
        Width::Byte => number % 256,
    }
}

/// The flags are those of comparing a register with a constant. Where the constant was subtracted from the register, it is
/// added for the comparison.
fn compared<M: Cells>(
    state: &State<M>,
    width: Width,
    source: Source,
    destination: Destination,
    is_subtracted: bool,
) -> Option<FlagFact>
    ensures { result ≡ facts.fact_of state.now width (facts.constant_of source) (facts.compared_register destination) (λ n. if is_subtracted then n else 0) }
{
    let compared = of_width(width, constant_of(source)?);
    let register = compared_register(destination)?;
    if !is_told(width, &state.registers[register as usize - 4].set) {
        return None;
    }
    Some(FlagFact {
        register,
        added: if is_subtracted { compared } else { 0 },
        compared,
        width,
    })
}

/// The fact behind an instruction with two operands, where the state has all else that is known behind it. Instructions
/// other than CMP and SUB set no fact of their own.
pub fn fact_behind<M: Cells>(
    state: &State<M>,
    operation: Operation,
    width: Width,
    source: Source,
    destination: Destination,
) -> Option<FlagFact>
    ensures { result ≡ facts.fact_behind operation width source destination state.now }
{
    match operation {
        Operation::Cmp => compared(state, width, source, destination, false),
        Operation::Sub => compared(state, width, source, destination, true),
        _ => state.fact,
    }
}
