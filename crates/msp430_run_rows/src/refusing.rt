//! Why a step isn't done.

use hex_digits::word;
use msp430_emu::{NoInstr, Stepped, Wild};

/// Whether a step isn't done, for the cause of this name.
pub fn is_refused(stepped: &Stepped, name: &str) -> bool {
    let (front, digits) = name.split_once(':').unwrap_or((name, ""));
    let at = word(digits.as_bytes());
    match stepped {
        Stepped::Met(_) => false,
        Stepped::NeedChoice => name == "NeedChoice",
        Stepped::Wild(Wild::Store(place)) => front == "Store" && at == Some(*place),
        Stepped::Wild(Wild::Push(place)) => front == "Push" && at == Some(*place),
        Stepped::Wild(Wild::NoInstr(NoInstr::OffImage(place))) => {
            front == "OffImage" && at == Some(*place)
        }
        Stepped::Wild(Wild::NoInstr(NoInstr::Excluded)) => name == "Excluded",
    }
}

/// Whether what a row says steps lead to is that the next one isn't done.
pub fn is_refusal(end: &str) -> bool {
    matches!(end, "NeedChoice" | "Excluded")
        || end.starts_with("Store:")
        || end.starts_with("Push:")
        || end.starts_with("OffImage:")
}
