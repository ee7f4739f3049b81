//! The numbers that widening stops at.

ghost use Rattle.std.specs.Prelude.{◌≡◌, ◌++◌, ◌+◌, ◌<◌, IfOk, OnOk};
ghost use Rattle.mcs51_decode.specs.Decoding.{decoded};
ghost use Rattle.chip_flow.specs.Marks.{mark, marks_along, marks_by};
ghost use Rattle.mcs51_flow.specs.Marks.{constant_of as the_constant, marks_at, marks_in, marks_found, marks_of as the_marks};

use mcs51_decode::{Comparison, Image, Instr, decode};
use std::alloc::{AllocError, Global};

/// How many addresses there are.
const ADDRESSES: u32 = 65536;

/// Adds a number, where it is below 256.
fn push_mark(marks: &mut Vec<u8>, value: u16) -> Result<(), AllocError>
    ensures { OnOk result (marks.new.items ≡ marks.old.items ++ mark 256 value) }
{
    if value < 256 {
        marks.push(value as u8)?;
    }
    Ok(())
}

/// The constant of a comparison, if it has one.
fn constant_of(comparison: Comparison) -> Option<u8>
    ensures { result ≡ the_constant comparison }
{
    match comparison {
        Comparison::AccumulatorImmediate(value) => Some(value),
        Comparison::AccumulatorDirect(_) => None,
        Comparison::WorkingImmediate { value, .. } => Some(value),
    }
}

/// Adds a constant and the number behind it.
fn push_constant(marks: &mut Vec<u8>, constant: Option<u8>) -> Result<(), AllocError>
    ensures { OnOk result (marks.new.items ≡ marks.old.items ++ marks_by 256 constant) }
{
    if let Some(value) = constant {
        let value = value as u16;
        push_mark(marks, value)?;
        push_mark(marks, value + 1)?;
    }
    Ok(())
}

/// Adds the marks of an instruction.
fn push_instr(marks: &mut Vec<u8>, instr: Instr) -> Result<(), AllocError>
    ensures { OnOk result (marks.new.items ≡ marks.old.items ++ marks_in instr) }
{
    match instr {
        Instr::CompareJump { comparison, .. } => push_constant(marks, constant_of(comparison)),
        _ => Ok(()),
    }
}

/// Adds the marks of what stands at an address.
fn push_found(marks: &mut Vec<u8>, image: &Image, at: u16) -> Result<(), AllocError>
    ensures { OnOk result (marks.new.items ≡ marks.old.items ++ marks_found (decoded image.now at)) }
{
    match decode(image, at) {
        Ok((instr, _)) => push_instr(marks, instr),
        Err(_) => Ok(()),
    }
}

/// Adds the marks of an image.
fn push_image(marks: &mut Vec<u8>, image: &Image) -> Result<(), AllocError>
    ensures { OnOk result (marks.new.items ≡ marks.old.items ++ marks_along (marks_at image.now) 0 65536) }
{
    for at in 0..ADDRESSES {
        push_found(marks, image, at as u16)?;
    }
    Ok(())
}

/// The marks of a program.
pub fn marks_of(alloc: Global, image: &Image) -> Result<Vec<u8>, AllocError>
    ensures { IfOk result (λ marks. marks.items ≡ the_marks image.now) }
{
    let mut marks = Vec::new(alloc);
    marks.push(0)?;
    marks.push(1)?;
    push_image(&mut marks, image)?;
    Ok(marks)
}
