//! The chip of a row.

ghost use Rattle.std.specs.Prelude.{IfOk, IfSome};
ghost use Rattle.image.specs.Kept.{IsRamRange, IsReadUnder};
ghost use Rattle.image.specs.declared.rule_set.Rules.{Rules};

use crate::promised::{Promised, promises_of};
use crate::sets::range_of;
use analysis_limits::Limits;
use ihex_read::{MOST_BYTES, Reader, Tail};
use image::{Image, RamRange, Rules};
use msp430_flow::Msp430Chip;
use no_memory::Memory;
use row_parts::CodeRow;
use std::alloc::{AllocError, Global};

/// Where RAM stands, by the range of a mirror, if a row has one.
fn ram_of(mirror: &str) -> Option<RamRange>
    ensures { IfSome result (λ ram. IsRamRange (Rules.Msp430 ram)) }
{
    match range_of(mirror) {
        Some(mirror) => RamRange::new(0x1100, 0x38FF, Some(mirror)),
        None => RamRange::new(0x0200, 0x02FF, None),
    }
}

/// The Intel HEX text of some code, and of a reset vector.
fn text_of(alloc: Global, pc: u16, code: &[u8]) -> Result<String, AllocError> {
    let len = (code.len() % 256) as u8;
    let mut sum = len
        .wrapping_add((pc / 256) as u8)
        .wrapping_add((pc % 256) as u8);
    let mut text = format!(in alloc; ":{len:02X}{pc:04X}00")?;
    for byte in code {
        write!(text, "{byte:02X}")?;
        sum = sum.wrapping_add(*byte);
    }
    let rest = 0u8.wrapping_sub(sum);
    write!(text, "{rest:02X}\n:02FFFE0000F011\n:00000001FF\n")?;
    Ok(text)
}

/// The image of a text, if it is one.
fn image_of(alloc: Global, rules: Rules, text: &str) -> Result<Option<Image>, Memory>
    requires { IsRamRange rules }
    ensures { IfOk result (λ found. IfSome found (IsReadUnder rules)) }
{
    let mut reader = Reader::new(alloc, rules, Tail::Blank)?;
    if text.len() > MOST_BYTES {
        return Ok(None);
    }
    let Ok(_used) = reader.feed(text.as_bytes()) else {
        return Ok(None);
    };
    match reader.end() {
        Ok(image) => Ok(Some(image)),
        Err(_) => Ok(None),
    }
}

/// The chip with the code of a row, perhaps a mirror, and what is promised.
pub fn chip_of(
    alloc: Global,
    row: &CodeRow,
    mirror: &str,
    promised: Promised,
) -> Result<Option<Msp430Chip>, Memory> {
    let Some(ram) = ram_of(mirror) else {
        return Ok(None);
    };
    let text = text_of(alloc, row.pc, &row.bytes)?;
    let Some(image) = image_of(alloc, ram.rules(), text.as_str())? else {
        return Ok(None);
    };
    let Some(promises) = promises_of(alloc, &image, row.pc, promised)? else {
        return Ok(None);
    };
    let chip = Msp430Chip::new(alloc, image, ram, Limits::USUAL)?;
    Ok(Some(chip.with_promises(promises)))
}
