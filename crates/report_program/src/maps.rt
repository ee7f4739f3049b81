//! The memories of a report's chip.

use crate::depth::Depths;
use crate::map::{Map, Use};
use hex_digits::byte;
use image::Image;
use no_memory::Memory;
use report_lines::{Access, Instr, Kind, Line, Report, Space};
use std::alloc::Global;

/// How many bytes an access reads or writes at once.
fn width_of(access: &Access<'_>) -> u16 {
    match access.kind {
        Kind::ReadOne | Kind::WriteOne => 1,
        Kind::ReadTwo | Kind::WriteTwo => 2,
    }
}

/// Marks a line of a report in the memory where it says something.
fn mark_line(map: &mut Map, code: Space, line: &Line<'_>) {
    match line {
        Line::Access(access) if access.space == map.space => {
            map.mark_set(&access.at, width_of(access));
        }
        Line::Instr(instr) if code == map.space => map.mark(instr.pc, instr.len, Use::Code),
        _ => {}
    }
}

/// The memory of a space, as a report and an image say.
fn map_of(
    alloc: Global,
    report: &Report<'_>,
    image: Option<&Image>,
    (space, size): (Space, usize),
) -> Result<Map, Memory> {
    let code = if report.grows_up() {
        Space::Code
    } else {
        Space::Mem
    };
    let mut map = Map::new(alloc, space, size)?;
    if let Some(image) = image
        && code == space
    {
        map.mark_image(image);
    }
    for line in report.lines.iter() {
        mark_line(&mut map, code, line);
    }
    if space == Space::Mem || space == Space::Ram {
        map.mark_stack(Depths::of(report));
    }
    if let Some(image) = image
        && space == Space::Mem
    {
        mark_vectors(&mut map, image);
    }
    Ok(map)
}

/// Marks the vectors of the MSP430's image, which the chip reads.
fn mark_vectors(map: &mut Map, image: &Image) {
    for k in 0..32u16 {
        let at = k.wrapping_add(0xFFE0);
        if image.byte(at).is_some() {
            map.mark(at, 1, Use::Data);
        }
    }
}

/// The memories of a report's chip.
pub fn maps_of(
    alloc: Global,
    report: &Report<'_>,
    image: Option<&Image>,
) -> Result<Vec<Map>, Memory> {
    let mut maps = Vec::new(alloc);
    if report.grows_up() {
        maps.push(map_of(alloc, report, image, (Space::Code, 0x10000))?)?;
        maps.push(map_of(alloc, report, image, (Space::Ram, 0x100))?)?;
        maps.push(map_of(alloc, report, image, (Space::Xram, 0x10000))?)?;
    } else {
        maps.push(map_of(alloc, report, image, (Space::Mem, 0x10000))?)?;
    }
    Ok(maps)
}

/// The address of an instruction whose bytes aren't those of the image, if there is one.
pub fn foreign_instr(report: &Report<'_>, image: &Image) -> Option<u16> {
    for line in report.lines.iter() {
        if let Line::Instr(instr) = line
            && !is_of(instr, image)
        {
            return Some(instr.pc);
        }
    }
    None
}

/// Whether an image has the bytes of an instruction.
fn is_of(instr: &Instr<'_>, image: &Image) -> bool {
    let mut at = instr.pc;
    for digits in instr.bytes.chunks(2) {
        if byte(digits) != image.byte(at).map(u16::from) {
            return false;
        }
        at = at.wrapping_add(1);
    }
    true
}
