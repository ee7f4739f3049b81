//! Which instructions promises may name.

ghost use Rattle.std.specs.Prelude.{◌≡◌};
ghost use Rattle.mcs51_kept.specs.Sites as sites;

use mcs51_decode::{Image, Instr, Memory, Place, Pointer, Working, decode};
use promises::{Growth, Site, Spoken};

fn working_pointer(working: Working) -> Option<Pointer>
    ensures { result ≡ sites.working_pointer working }
{
    match working {
        Working::Indirect(pointer) => Some(pointer),
        Working::Register(_) => None,
    }
}

fn memory_pointer(memory: Memory) -> Option<Pointer>
    ensures { result ≡ sites.memory_pointer memory }
{
    match memory {
        Memory::Direct(_) => None,
        Memory::Working(working) => working_pointer(working),
    }
}

fn place_pointer(place: Place) -> Option<Pointer>
    ensures { result ≡ sites.place_pointer place }
{
    match place {
        Place::Accumulator => None,
        Place::Memory(memory) => memory_pointer(memory),
    }
}

/// R0 or R1, where an instruction stores in RAM through it.
#[tactic(auto, unfolding(crate::specs::Sites::pointer_of))]
pub fn pointer_of(instr: &Instr) -> Option<Pointer>
    ensures { result ≡ sites.pointer_of instr.now }
{
    match *instr {
        Instr::Increment(place) | Instr::Decrement(place) => place_pointer(place),
        Instr::MoveImmediate { to, .. } => place_pointer(to),
        Instr::MoveFromDirect { to, .. } => working_pointer(to),
        Instr::Store(memory) | Instr::Exchange(memory) => memory_pointer(memory),
        Instr::ExchangeDigit(pointer) => Some(pointer),
        _ => None,
    }
}

/// Whether an instruction goes on where a value says.
#[tactic(auto, unfolding(crate::specs::Sites::way_of))]
fn way_of(instr: &Instr) -> Site
    ensures { result ≡ sites.way_of instr.now }
{
    match instr {
        Instr::Return | Instr::JumpIndirect => Site::Way,
        _ => Site::Nothing,
    }
}

fn site_of(instr: &Instr) -> Site
    ensures { result ≡ sites.site_of instr.now }
{
    match pointer_of(instr) {
        Some(_) => Site::Store { size: 1 },
        None => way_of(instr),
    }
}

/// What an image says of its instructions.
#[derive(Clone, Copy)]
pub struct Sites<'a> {
    pub image: &'a Image,
}

impl<'a> Spoken for Sites<'a> {
    ghost use Rattle.mcs51_kept.specs.Sites.{spoken as spoken_of};

    ghost spoken = { λ sites. spoken_of sites.image.now };

    fn growth(&self) -> Growth {
        Growth::Up
    }

    fn site_at(&self, pc: u16) -> Site {
        match decode(self.image, pc) {
            Ok((instr, _)) => site_of(&instr),
            Err(_) => Site::Nothing,
        }
    }
}
