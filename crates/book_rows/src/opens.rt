//! The lines of opens.

use chip_analysis::Cause;
use report_bytes::open_line;
use std::alloc::Global;
use value_set::Vs16;

/// Whether a site at F00Ah that is left open has this line.
fn has_line(alloc: Global, cause: Cause, text: &str) -> bool {
    match open_line(alloc, 0xF00A, &cause) {
        Ok(line) => line.as_slice() == text.as_bytes(),
        Err(_) => false,
    }
}

#[test]
fn rows_of_opens(rt: HostRuntime) {
    let alloc = rt.alloc();
    let targets = Cause::Targets(Vs16::one(0xF010));
    let have_lines = [
        has_line(alloc, Cause::Fetch, "O F00A Fetch"),
        has_line(alloc, targets, "O F00A Targets F010"),
        has_line(alloc, Cause::Store(Vs16::any()), "O F00A Store *"),
    ];
    assert_eq!(rt; have_lines, [true; 3]);
}
