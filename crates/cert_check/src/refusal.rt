//! Why a table is refused.

ghost use Rattle.std.specs.Prelude.{◌≡◌};

use call_context::Node;
use chip_analysis::Cause;
use no_memory::Memory;
use state_text::Outside;

/// Why a table isn't closed. Lines are those of its certificate.
#[derive(Drop)]
pub enum Refusal {
    /// The location on this line posts to a node that isn't there.
    Unknown {
        line: u32,
        target: Node,
    },
    /// The node that each run begins in isn't there.
    NoStart,
    /// The location on this line posts a state that isn't within the one held, or the reset does, where the line is 0.
    NotIn {
        line: u32,
        target: Node,
        outside: Outside,
    },
    /// The location on this line leaves a site open.
    HasOpen {
        line: u32,
        pc: u16,
        cause: Cause,
    },
}

/// Why there is no closed book of a certificate.
#[derive(Drop)]
pub enum CheckError {
    /// Its table isn't closed.
    Refused(Refusal),
    Memory,
}

impl From<Memory> for CheckError {
    ghost use Rattle.cert_check.specs.declared.refusal.CheckError.TheVariants as errors;

    ghost from_gives = { λ _ e. e ≡ errors.Memory };

    fn from(_error: Memory) -> CheckError {
        CheckError::Memory
    }
}
