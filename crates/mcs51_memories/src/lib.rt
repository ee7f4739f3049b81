//! What instructions of the MCS-51 that reach the stack, the program or external RAM, or write two registers, make of what is
//! known of a state.
//!
//! - [`push`] and [`pop`], with [`show_push`] and [`show_pop`]: PUSH and POP of a direct byte.
//! - [`load_data_pointer`] and [`increment_data_pointer`]: MOV and INC of DPTR. [`multiply`] and [`divide`]: MUL and DIV.
//! - [`load_code`] and [`show_code`]: MOVC. It reads the bytes of the image at up to 256 addresses, and any byte at more.
//! - [`load_external`] and [`show_external`]: MOVX. What it writes is held nowhere.
//!
//! Each is exact by a formula of `specs`. The laws are functions that do nothing: [`memories_do`] says that the instruction
//! does what is said, and [`memories_keep_form`] that what is said is in form.
#![tactic(auto)]

mod code;
mod external;
mod laws;
mod pairs;
mod stacking;

pub use code::{load_code, show_code};
pub use external::{load_external, show_external};
pub use laws::{memories_do, memories_keep_form};
pub use pairs::{divide, increment_data_pointer, load_data_pointer, multiply};
pub use stacking::{pop, push, show_pop, show_push};
