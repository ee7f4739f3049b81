//! What widening of the MSP430 stops at: 0, 1, the ends of RAM and of its mirror, and each constant of CMP and SUB with the
//! number behind it, at any even address.

use crate::images::image_of;
use chip_analysis::Chip;
use entry_value::Word;
use image::RamRange;
use mcs51_flow::Limits;
use msp430_flow::{Kept, Msp430Chip};
use std::alloc::Global;
use std::test::Fail;
use value_set::Vs16;

/// CMP R5,R4 and MOV #7,R4, which have no marks.
const UNMARKED: &str = ":06F00000049534400700F6";

/// The chip with the program of a record, and RAM from 0200h to 09FFh, whose first 200h bytes answer at 1000h too.
fn chip_of(alloc: Global, record: &str) -> Option<Msp430Chip> {
    let ram = RamRange {
        lo: 0x0200,
        hi: 0x09FF,
        mirror: Some((0x1000, 0x11FF)),
    };
    let limits = Limits {
        calls: 6,
        targets: 64,
    };
    if let Ok(text) = format!(in alloc; "{record}\n:02FFFE0000F011\n:00000001FF\n")
        && let Some(image) = image_of(alloc, ram.rules(), text.as_str())
    {
        return Msp430Chip::new(alloc, image, ram, limits).ok();
    }
    None
}

/// The state at the start, but for R4.
fn with(alloc: Global, chip: &Msp430Chip, r4: Vs16) -> Option<Kept> {
    if let Ok((_node, start)) = chip.start(alloc)
        && let Ok(mut state) = start.state().copy(alloc)
    {
        state.registers[0] = Word {
            set: r4,
            entry: None,
        };
        return Kept::new(alloc, state).ok();
    }
    None
}

/// R4 of a set, widened by one number.
fn widened(alloc: Global, record: &str, held: &[u16], new: u16, coarse: bool) -> Option<Vs16> {
    if let Some(chip) = chip_of(alloc, record)
        && let Some(held) = Vs16::gather(held)
        && let Some(held) = with(alloc, &chip, held)
        && let Some(new) = with(alloc, &chip, Vs16::one(new))
        && let Ok(wide) = chip.widen(alloc, &held, &new, coarse)
    {
        return Some(wide.state().registers[0].set);
    }
    None
}

#[test]
fn rows_of_marks(rt: HostRuntime) -> Result<(), Fail> {
    let rows: [(&str, &[u16], u16, bool, u16, u32); 12] = [
        // CMP #4,R15 by a generated constant: 4, and the 5 behind it
        (":02F000002F924D", &[1], 2, false, 1, 3),
        (":02F000002F924D", &[1, 2, 3], 4, false, 1, 4),
        // CMP.B #1234h,R5: the low byte
        (":04F0000075903412C1", &[0x32], 0x33, false, 0x32, 2),
        // SUB #0100h,R4
        (":04F000003480000157", &[0xFE], 0xFF, false, 0xFE, 2),
        (":04F000003480000157", &[0xFE, 0xFF], 0x0100, false, 0xFE, 3),
        // CMP #-1,R4: there is no number behind it
        (":02F00000349347", &[0xFFFC], 0xFFFD, false, 0xFFFC, 3),
        // the CMP #4,R15 that is the second word of MOV #922Fh,R4
        (":04F0000034402F92D7", &[1], 2, false, 1, 3),
        // without marks up to the first address of RAM, and to the first one behind it
        (UNMARKED, &[5], 6, false, 5, 0x01FB),
        (UNMARKED, &[0x09FD], 0x09FE, false, 0x09FD, 3),
        // up to the first address of the mirror, and to the first one behind it
        (UNMARKED, &[0x0FFC], 0x0FFD, false, 0x0FFC, 4),
        (UNMARKED, &[0x11FD], 0x11FE, false, 0x11FD, 3),
        // where widening is coarse it stops at none
        (":02F000002F924D", &[1], 2, true, 0, 0x0001_0000),
    ];
    for (record, held, new, coarse, base, count) in rows {
        let wanted = Vs16::run(base, 1, count).ok_or("a run")?;
        let found = widened(rt.alloc(), record, held, new, coarse);
        assert_eq!(rt; found, Some(wanted), "{record}");
    }
    Ok(())
}
