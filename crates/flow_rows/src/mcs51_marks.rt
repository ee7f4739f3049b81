//! What widening of the MCS-51 stops at: 0, 1, and each constant of CJNE with the number behind it, at any address.

use crate::images::image_of;
use chip_analysis::Chip;
use image::Rules;
use mcs51_flow::{Kept, Limits, Mcs51Chip};
use std::alloc::Global;
use std::test::Fail;
use value_set::Vs8;

/// CJNE A,#FFh.
const HIGHEST: &str = ":03000000B4FF004A";

/// The chip with the program of a record.
fn chip_of(alloc: Global, record: &str) -> Option<Mcs51Chip> {
    let limits = Limits {
        calls: 6,
        targets: 64,
    };
    if let Ok(text) = format!(in alloc; "{record}\n:00000001FF\n")
        && let Some(image) = image_of(alloc, Rules::Mcs51, text.as_str())
    {
        return Mcs51Chip::new(alloc, image, limits).ok();
    }
    None
}

/// The state at the start, but for the accumulator.
fn with(alloc: Global, chip: &Mcs51Chip, a: Vs8) -> Option<Kept> {
    if let Ok((_node, start)) = chip.start(alloc)
        && let Ok(mut state) = start.state().copy(alloc)
    {
        state.a.set = a;
        return Kept::new(alloc, state).ok();
    }
    None
}

/// The accumulator of a set, widened by one number.
fn widened(alloc: Global, record: &str, held: &[u8], new: u8, coarse: bool) -> Option<Vs8> {
    if let Some(chip) = chip_of(alloc, record)
        && let Some(held) = Vs8::gather(held)
        && let Some(held) = with(alloc, &chip, held)
        && let Some(new) = with(alloc, &chip, Vs8::one(new))
        && let Ok(wide) = chip.widen(alloc, &held, &new, coarse)
    {
        return Some(wide.state().a.set);
    }
    None
}

#[test]
fn rows_of_marks(rt: HostRuntime) -> Result<(), Fail> {
    let rows: [(&str, &[u8], u8, bool, u8, u32); 10] = [
        // CJNE A,#4: 4, and the 5 behind it
        (":03000000B4040045", &[1], 2, false, 1, 3),
        (":03000000B4040045", &[1, 2, 3], 4, false, 1, 4),
        // CJNE R0,#10h, and CJNE @R1,#20h
        (":03000000B8100035", &[0x0E], 0x0F, false, 0x0E, 2),
        (":03000000B7200026", &[0x1E], 0x1F, false, 0x1E, 2),
        // without a number behind it, and without a mark above it, where the set is all of its class
        (HIGHEST, &[0xFC], 0xFD, false, 0xFC, 3),
        (HIGHEST, &[0xFC, 0xFD, 0xFE], 0xFF, false, 0, 256),
        // the one that begins in MOV DPTR,#B404h
        (":0400000090B40400B4", &[1], 2, false, 1, 3),
        // CJNE A,30h and SUBB A,#4 have none
        (":03000000B5300018", &[1], 2, false, 0, 256),
        (":02000000940466", &[1], 2, false, 0, 256),
        // where widening is coarse it stops at none
        (":03000000B4040045", &[1], 2, true, 0, 256),
    ];
    for (record, held, new, coarse, base, count) in rows {
        let wanted = Vs8::run(base, 1, count).ok_or("a run")?;
        let found = widened(rt.alloc(), record, held, new, coarse);
        assert_eq!(rt; found, Some(wanted), "{record}");
    }
    Ok(())
}
