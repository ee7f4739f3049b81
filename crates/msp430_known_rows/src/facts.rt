//! Facts and bits, as a row writes them.

ghost use Rattle.std.specs.Prelude.{◌<◌, IfSome};

use crate::sets::{entry_of, number_of, register_of};
use msp430_decode::Width;
use msp430_state::{FlagFact, Status};
use value_bits::Tri;

/// A fact of the flags, as `R5+0004:0004` and `R5:04`.
pub fn fact_of(text: &str) -> Option<FlagFact> {
    let (front, compared) = text.split_once(':').unwrap_or(("", ""));
    let (name, added) = front.split_once('+').unwrap_or((front, "0000"));
    let width = if compared.len() == 2 {
        Width::Byte
    } else {
        Width::Word
    };
    if let Some(register) = register_of(name)
        && let Some(added) = number_of(added)
        && let Some(compared) = number_of(compared)
    {
        return Some(FlagFact {
            register: register as u8,
            added,
            compared,
            width,
        });
    }
    None
}

/// The place of a bit in SR.
pub fn bit_named(name: &str) -> Option<usize>
    ensures { IfSome result (λ place. place < 9) }
{
    match name {
        "C" => Some(0),
        "Z" => Some(1),
        "N" => Some(2),
        "GIE" => Some(3),
        "CPUOFF" => Some(4),
        "OSCOFF" => Some(5),
        "SCG0" => Some(6),
        "SCG1" => Some(7),
        "V" => Some(8),
        _ => None,
    }
}

/// What is known of a bit.
fn digit_of(digit: char) -> Tri {
    match digit {
        '0' => Tri::Zero,
        '1' => Tri::One,
        _ => Tri::Either,
    }
}

/// The same of a text that is the bit.
pub fn bit_of(text: &str) -> Tri {
    digit_of(text.chars().next().unwrap_or('*'))
}

/// SR by its bits from V down to C, perhaps with a relation.
pub fn status_of(text: &str) -> Status {
    let (digits, relation) = text.split_once('@').unwrap_or((text, ""));
    let mut bits = [Tri::Either; 9];
    for (bit, digit) in bits.iter_mut().zip(digits.chars().rev()) {
        *bit = digit_of(digit);
    }
    Status {
        bits,
        entry: entry_of(relation),
    }
}
