//! The entry of an interrupt (SLAU049, chapter 2, "Interrupts").

ghost use Rattle.std.specs.Prelude.{◌≡◌, ◌+◌, ◌<◌, All, IfSome, true};
ghost use Rattle.std.specs.List.{filter, range_with_len};
ghost use Rattle.image.specs.Image.{byte_at};
ghost use Rattle.msp430_chip.specs.Interrupts as interrupts;
ghost use Rattle.msp430_chip.specs.State as states;
ghost use Rattle.choosing.specs.Choosing.{asked_as};
ghost use Rattle.msp430_emu.specs.Planning.{planned};
ghost use Rattle.msp430_chip.specs.Registers.{AreRegisters};

use crate::effect::{Access, Accesses, Plan, Store};
use crate::memory::{Layout, even};
use arrayvec::ArrayVec;
use choosing::Unused;
use image::Image;
use msp430_chip::ChipState;
use msp430_decode::Width;

/// How many vectors there are.
pub(crate) const VECTORS: usize = 14;

/// Whether GIE is set.
pub(crate) fn allows_interrupts(s: &ChipState) -> bool
    ensures { result ≡ states.allows_interrupts s.now }
{
    s.registers[2] / 8 % 2 == 1
}

fn vector_address(vector: u16) -> u16
    requires { vector < 14 }
    ensures value { result ≡ interrupts.vector_address vector }
    ensures room { result < 65535 }
{
    0xFFE0 + 2 * vector
}

/// Whether a vector is in the image, and not erased.
fn may_come(layout: &Layout, vector: u16) -> bool
    requires { vector < 14 }
    ensures { result ≡ interrupts.may_come layout.now vector }
{
    let at = vector_address(vector);
    match (layout.image.byte(at), layout.image.byte(at + 1)) {
        (Some(low), Some(high)) => !(low == 255 && high == 255),
        _ => false,
    }
}

/// The interrupts that may come at a boundary, ascending.
#[tactic(auto, unfolding(msp430_chip::specs::Interrupts::coming))]
pub(crate) fn coming(layout: &Layout, s: &ChipState) -> ArrayVec<u16, VECTORS>
    ensures vectors { result.items ≡ interrupts.coming layout.now s.now }
    ensures below { All (λ vector. vector < 14) result.items }
{
    if allows_interrupts(s) || s.late {
        raised(layout)
    } else {
        ArrayVec::new()
    }
}

/// The vectors that are in the image, and not erased.
fn raised(layout: &Layout) -> ArrayVec<u16, VECTORS>
    ensures vectors { result.items ≡ filter (interrupts.may_come layout.now) (range_with_len 0 14) }
    ensures below { All (λ vector. vector < 14) result.items }
{
    let mut vectors = ArrayVec::new();
    for vector in 0..VECTORS as u16 {
        if may_come(layout, vector) {
            vectors.push(vector);
        }
    }
    vectors
}

/// The word of the image at an even address, where it has both bytes, and else 0.
pub(crate) fn image_word(image: &Image, at: u16) -> u16
    requires { at < 65535 }
    ensures { result ≡ states.word_from (byte_at image.now at) (byte_at image.now (at + 1)) }
{
    match (image.byte(at), image.byte(at + 1)) {
        (Some(low), Some(high)) => low as u16 + 256 * high as u16,
        _ => 0,
    }
}

/// The registers behind an entry: SP below two words, and SR with SCG0, bit 6, alone.
#[tactic(auto, using(msp430_chip::specs::Registers::registers_kept))]
fn entered(layout: &Layout, s: &ChipState, vector: u16) -> [u16; 16]
    requires vector { vector < 14 }
    requires registers { AreRegisters s.now.registers }
    ensures value { result ≡ interrupts.entered layout.now s.now vector }
    ensures form { AreRegisters result }
{
    let mut registers = s.registers;
    registers[0] = even(image_word(layout.image, vector_address(vector)));
    registers[1] = s.registers[1].wrapping_sub(4);
    registers[2] = s.registers[2] / 64 % 2 * 64;
    registers
}

/// The entry of an interrupt: PC is pushed, then SR with any bits 9 to 15.
#[tactic(auto, unfolding(msp430_chip::specs::Interrupts::enter))]
pub(crate) fn enter(
    layout: &Layout,
    s: &ChipState,
    vector: u16,
    choices: &mut Unused,
) -> Option<Plan>
    requires vector { vector < 14 }
    requires registers { AreRegisters s.now.registers }
    ensures exact { asked_as (planned layout.now s.now) result choices.new ≡ interrupts.enter layout.now s.now vector choices.old }
    ensures form { IfSome result (λ plan. AreRegisters plan.registers) }
{
    let first = s.registers[1].wrapping_sub(2);
    let second = s.registers[1].wrapping_sub(4);
    let bits = choices.ask(128)?;
    Some(Plan {
        bytes: None,
        accesses: Accesses {
            first: None,
            second: Some(Access::of_stack(true, first)),
            third: Some(Access::of_stack(true, second)),
        },
        registers: entered(layout, s, vector),
        first: Some(Store {
            width: Width::Word,
            at: first,
            value: s.registers[0],
        }),
        second: Some(Store {
            width: Width::Word,
            at: second,
            value: s.registers[2] + 512 * bits as u16,
        }),
        late: false,
    })
}
