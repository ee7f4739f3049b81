//! R4 to R15.

ghost use Rattle.std.specs.Prelude.{◌≡◌, ◌<◌, ◌++◌, [], OnOk, slice_index_or};
ghost use Rattle.std.specs.Option.{option_map};
ghost use Rattle.text_fields.specs.Fronts.{each_in_front, named_texts};
ghost use Rattle.value_text.specs.Words.{word_text};
ghost use Rattle.msp430_fields.specs.Parts.{register_value};
ghost use Rattle.msp430_fields.specs.Places.{place_field};
ghost use Rattle.msp430_fields.specs.States.{register_names};

use crate::parts::WordField;
use entry_value::Word;
use std::alloc::AllocError;
use text_fields::{push_named, read_front};
use value_set::Vs16;

/// How a text names them.
const NAMES: [&str; 12] = [
    "R4=", "R5=", "R6=", "R7=", "R8=", "R9=", "R10=", "R11=", "R12=", "R13=", "R14=", "R15=",
];

/// The name of one of them.
fn name_at(place: usize) -> &'static [u8]
    requires { place < 12 }
    ensures { result.now ≡ slice_index_or register_names place [] }
{
    NAMES[place].as_bytes()
}

/// The registers in front of a text, each behind its name and in front of a space, and the text behind them.
pub(crate) fn read_registers(framed: bool, text: &[u8]) -> Option<([Word; 12], &[u8])>
    ensures { option_map (λ x. (x.0, x.1.now)) result
        ≡ each_in_front 32 (register_value framed) register_names text.now }
{
    let field = WordField { framed };
    let unknown = Word {
        set: Vs16::any(),
        entry: None,
    };
    let mut registers = [unknown; 12];
    let mut rest = text;
    for i in 0..12 {
        let Some((word, behind)) = read_front(&field, name_at(i), b' ', rest) else {
            return None;
        };
        registers[i] = word;
        rest = behind;
    }
    Some((registers, rest))
}

/// Adds the registers, each behind its name and in front of a space.
pub(crate) fn push_registers(registers: &[Word; 12], out: &mut Vec<u8>) -> Result<(), AllocError>
    ensures { OnOk result (out.new.items ≡ out.old.items
        ++ named_texts 32 (word_text 4 place_field) register_names registers.now) }
{
    let field = WordField { framed: true };
    for i in 0..12 {
        push_named(&field, name_at(i), &registers[i], out)?;
        out.push(b' ')?;
    }
    Ok(())
}
