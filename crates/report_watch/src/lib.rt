//! What a person should know of a report, also where it is closed: [`Watch`] looks at its lines as they are written.
#![tactic(auto)]

mod mcs51;
mod msp430;
mod watch;

pub use mcs51::Mcs51Seen;
pub use msp430::Msp430Seen;
pub use watch::{Seen, Variable, Watch};
