//! Of which instructions of an image promises may speak.

ghost use Rattle.std.specs.Prelude.{◌≡◌};
ghost use Rattle.msp430_kept.specs.Sites as specs;

use crate::pointer::{Pointer, single_pointer, target_pointer, writes_result};
use image::Image;
use msp430_decode::{Destination, Instr, Register, SingleOperation, Source, Width, decode};
use promises::{Growth, Site, Spoken};

/// Whether an operand is a number of the program.
fn is_number(operand: Source) -> bool
    ensures { result ≡ specs.is_number operand }
{
    matches!(operand, Source::Immediate(_) | Source::Constant(_))
}

/// What an instruction is that stores nothing, by its destination.
fn target_way(source: Source, destination: Destination) -> Site
    ensures { result ≡ specs.target_way source destination }
{
    match destination {
        Destination::Register(Register::Pc) if !is_number(source) => Site::Way,
        _ => Site::Nothing,
    }
}

/// The same, by its one operand.
fn call_way(operation: SingleOperation, operand: Source) -> Site
    ensures { result ≡ specs.call_way operation operand }
{
    match operation {
        SingleOperation::Call if !is_number(operand) => Site::Way,
        _ => Site::Nothing,
    }
}

/// A store through a pointer, or else something other.
fn store_or(width: Width, pointer: Option<Pointer>, other: Site) -> Site
    ensures { result ≡ specs.store_or width pointer other }
{
    match (pointer, width) {
        (Some(_), Width::Word) => Site::Store { size: 2 },
        (Some(_), Width::Byte) => Site::Store { size: 1 },
        (None, _) => other,
    }
}

/// What an instruction is.
fn site_of(instr: &Instr) -> Site
    ensures { result ≡ specs.site_of instr.now }
{
    match *instr {
        Instr::Double {
            operation,
            width,
            source,
            destination,
        } => {
            if !writes_result(operation) {
                return Site::Nothing;
            }
            let pointer = target_pointer(width, source, destination);
            store_or(width, pointer, target_way(source, destination))
        }
        Instr::Single {
            operation,
            width,
            operand,
        } => store_or(
            width,
            single_pointer(operation, operand),
            call_way(operation, operand),
        ),
        Instr::Jump { .. } | Instr::ReturnFromInterrupt => Site::Nothing,
    }
}

/// The instructions of an image.
#[derive(Drop)]
pub struct Sites<'a> {
    pub image: &'a Image,
}

impl<'a> Spoken for Sites<'a> {
    ghost spoken = { λ sites. specs.spoken sites.image.now };

    fn growth(&self) -> Growth {
        Growth::Down
    }

    #[tactic(auto, unfolding(crate::specs::Sites::site_at))]
    fn site_at(&self, pc: u16) -> Site {
        if pc % 2 != 0 {
            return Site::Nothing;
        }
        match decode(self.image, pc) {
            Ok((instr, _)) => site_of(&instr),
            Err(_) => Site::Nothing,
        }
    }
}
