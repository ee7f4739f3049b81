//! Why there is no instruction.

use hex_digits::word;
use msp430_decode::NoInstr;

/// Whether this is the cause of a name.
pub fn is_refused(refusal: NoInstr, name: &str) -> bool {
    match refusal {
        NoInstr::Excluded => name == "Excluded",
        NoInstr::OffImage(place) => match name.strip_prefix("OffImage:") {
            Some(digits) => word(digits.as_bytes()) == Some(place),
            None => false,
        },
    }
}
