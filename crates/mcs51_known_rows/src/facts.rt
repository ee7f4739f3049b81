//! Facts and levels, as a row writes them.

use crate::sets::byte_number;
use mcs51_state::{CarryFact, Compared, Levels, LinearFact};

/// A fact of the accumulator, as `30*3+0A`.
pub fn linear_of(text: &str) -> Option<LinearFact> {
    let (place, rest) = text.split_once('*')?;
    let (factor, added) = rest.split_once('+')?;
    Some(LinearFact {
        place: byte_number(place)?,
        factor: byte_number(factor)?,
        added: byte_number(added)?,
    })
}

/// A fact of CY, as `A<04` and `30<04`.
pub fn carry_of(text: &str) -> Option<CarryFact> {
    let (compared, bound) = text.split_once('<')?;
    let compared = match compared {
        "A" => Compared::Accumulator,
        _ => Compared::Ram(byte_number(compared)?),
    };
    Some(CarryFact {
        compared,
        bound: byte_number(bound)?,
    })
}

/// The levels that may be in service, with commas between them.
pub fn levels_of(text: &str) -> Levels {
    let mut levels = Levels {
        none: false,
        low: false,
        high: false,
        both: false,
    };
    for level in text.split(',') {
        match level {
            "L" => levels.low = true,
            "H" => levels.high = true,
            "LH" => levels.both = true,
            _ => levels.none = true,
        }
    }
    levels
}
