//! Which lines hold.

use std::alloc::AllocError;
use std::io::{self, BufRead, BufReader};

/// Asks of each line of the standard input, but for comments (`#`), whether it is a row, and whether it holds. Prints each
/// row that doesn't hold, and then how many do.
pub fn tell<F: FnMut(&str) -> Result<Option<bool>, AllocError>>(
    rt: HostRuntime,
    mut ask: F,
) -> io::Result<()>
    requires { F.IsAlwaysCallable ask }
{
    let alloc = rt.alloc();
    let mut count = 0u32;
    for line in BufReader::new(alloc, rt.reader())?.lines(alloc) {
        let line = line?;
        if line.as_str().starts_with('#') {
            continue;
        }
        match ask(line.as_str())? {
            Some(true) => count = count.wrapping_add(1),
            Some(false) => println!(rt; "doesn't hold: {line}")?,
            None => {}
        }
    }
    println!(rt; "{count} rows hold")?;
    Ok(())
}
