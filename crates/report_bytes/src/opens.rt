//! The lines of opens.

ghost use Rattle.std.specs.Prelude.{◌≡◌, IfOk};
ghost use Rattle.report_bytes.specs.Opens.{open_line_of};

use chip_analysis::Cause;
use item_lines::{line_at, push_word_set};
use no_memory::Memory;
use std::alloc::Global;

/// The line of an open, without its line feed.
pub fn open_line(alloc: Global, pc: u16, cause: &Cause) -> Result<Vec<u8>, Memory>
    ensures { IfOk result (λ line. line.items ≡ open_line_of pc cause.now) }
{
    let mut line = line_at(alloc, b'O', pc)?;
    match cause {
        Cause::Fetch => line.extend_from_slice(b" Fetch")?,
        Cause::Targets(values) => {
            line.extend_from_slice(b" Targets ")?;
            push_word_set(&mut line, values)?;
        }
        Cause::Store(values) => {
            line.extend_from_slice(b" Store ")?;
            push_word_set(&mut line, values)?;
        }
    }
    Ok(line)
}
