//! PC as an operand.

ghost use Rattle.std.specs.Prelude.{◌≡◌};
ghost use Rattle.msp430_chip.specs.Step as step;
ghost use Rattle.msp430_alu.specs.Formats as formats;

use msp430_decode::{Destination, Register, Source};
use value_set::Vs16;

/// Whether PC is the source of an instruction with a destination in memory.
fn reads_counter(source: Source, destination: Destination) -> bool
    ensures { result ≡ step.reads_counter source destination }
{
    match (source, destination) {
        (Source::Register(Register::Pc), Destination::Register(_)) => false,
        (Source::Register(Register::Pc), _) => true,
        _ => false,
    }
}

/// What PC may be as an operand: behind the instruction, or in front of one of its extension words.
pub fn counter_set(pc: u16, len: u8, source: Source, destination: Destination) -> Vs16
    ensures { result ≡ formats.counter_set pc len source destination }
{
    if reads_counter(source, destination) {
        return Vs16::one(pc.wrapping_add(2)).join(&Vs16::one(pc.wrapping_add(4)));
    }
    Vs16::one(pc.wrapping_add(len as u16))
}
