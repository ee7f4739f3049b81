//! The numbers that widening stops at.

ghost use Rattle.std.specs.Prelude.{◌≡◌, ◌++◌, ◌+◌, ◌<◌, ◌*◌, IfOk, OnOk, option_map};
ghost use Rattle.msp430_decode.specs.Decoding.{decoded};
ghost use Rattle.chip_flow.specs.Marks.{mark, marks_along, marks_by};
ghost use Rattle.msp430_flow.specs.Marks.{constant_of as the_constant, in_width, is_comparison, marks_at, marks_in, marks_found, marks_of as the_marks, mirror_marks, range_marks};

use image::Image;
use msp430_chip::Device;
use msp430_decode::{Instr, Operation, Source, Width, decode};
use std::alloc::{AllocError, Global};

/// How many words there are.
const WORDS: u16 = 32768;

/// Adds a number, where it is below 65536.
fn push_mark(marks: &mut Vec<u16>, value: u32) -> Result<(), AllocError>
    ensures { OnOk result (marks.new.items ≡ marks.old.items ++ mark 65536 value) }
{
    if value < 65536 {
        marks.push(value as u16)?;
    }
    Ok(())
}

/// The number that a source is, if it is one.
fn constant_of(operand: Source) -> Option<u16>
    ensures { result ≡ the_constant operand }
{
    match operand {
        Source::Immediate(value) => Some(value),
        Source::Constant(constant) => Some(constant.value()),
        _ => None,
    }
}

/// The number, or its low byte.
fn of_width(width: Width, value: u16) -> u16
    ensures { result ≡ in_width width value }
{
    match width {
        Width::Word => value,
        Width::Byte => value % 256,
    }
}

/// Whether an operation compares.
fn compares(operation: Operation) -> bool
    ensures { result ≡ is_comparison operation }
{
    matches!(operation, Operation::Cmp | Operation::Sub)
}

/// Adds a constant and the number behind it.
fn push_constant(
    marks: &mut Vec<u16>,
    width: Width,
    constant: Option<u16>,
) -> Result<(), AllocError>
    ensures { OnOk result (marks.new.items ≡ marks.old.items ++ marks_by 65536 (option_map (in_width width) constant)) }
{
    if let Some(value) = constant {
        let value = of_width(width, value) as u32;
        push_mark(marks, value)?;
        push_mark(marks, value + 1)?;
    }
    Ok(())
}

/// Adds the marks of an instruction.
fn push_instr(marks: &mut Vec<u16>, instr: Instr) -> Result<(), AllocError>
    ensures { OnOk result (marks.new.items ≡ marks.old.items ++ marks_in instr) }
{
    match instr {
        Instr::Double {
            operation,
            width,
            source,
            ..
        } => {
            if !compares(operation) {
                return Ok(());
            }
            push_constant(marks, width, constant_of(source))
        }
        Instr::Single { .. } | Instr::Jump { .. } | Instr::ReturnFromInterrupt => Ok(()),
    }
}

/// Adds the marks of what stands at an even address.
fn push_found(marks: &mut Vec<u16>, image: &Image, word: u16) -> Result<(), AllocError>
    requires { word < 32768 }
    ensures { OnOk result (marks.new.items ≡ marks.old.items ++ marks_found (decoded image.now (2 * word))) }
{
    match decode(image, 2 * word) {
        Ok((instr, _)) => push_instr(marks, instr),
        Err(_) => Ok(()),
    }
}

/// Adds the marks of an image.
fn push_image(marks: &mut Vec<u16>, image: &Image) -> Result<(), AllocError>
    ensures { OnOk result (marks.new.items ≡ marks.old.items ++ marks_along (marks_at image.now) 0 32768) }
{
    for word in 0..WORDS {
        push_found(marks, image, word)?;
    }
    Ok(())
}

/// Adds where a range begins, and where what is behind it does.
fn push_range(marks: &mut Vec<u16>, lo: u16, hi: u16) -> Result<(), AllocError>
    ensures { OnOk result (marks.new.items ≡ marks.old.items ++ range_marks lo hi) }
{
    push_mark(marks, lo as u32)?;
    push_mark(marks, hi as u32 + 1)
}

/// Adds the ends of the mirror of RAM, if there is one.
fn push_mirror(marks: &mut Vec<u16>, mirror: Option<(u16, u16)>) -> Result<(), AllocError>
    ensures { OnOk result (marks.new.items ≡ marks.old.items ++ mirror_marks mirror) }
{
    match mirror {
        Some((first, last)) => push_range(marks, first, last),
        None => Ok(()),
    }
}

/// The marks of a device.
pub fn marks_of(alloc: Global, device: &Device) -> Result<Vec<u16>, AllocError>
    ensures { IfOk result (λ marks. marks.items ≡ the_marks device.now) }
{
    let mut marks = Vec::new(alloc);
    marks.push(0)?;
    marks.push(1)?;
    push_range(&mut marks, device.ram.lo, device.ram.hi)?;
    push_mirror(&mut marks, device.ram.mirror)?;
    push_image(&mut marks, &device.image)?;
    Ok(marks)
}
