//! Which interrupts may come.

ghost use Rattle.std.specs.Prelude.{◌≡◌, ◌+◌, ◌<◌, ◌++◌, if◌then◌else◌, [], IfOk, OnOk};
ghost use Rattle.std.specs.List.{flat_map, slice_index_or};
ghost use Rattle.value_bits.specs.declared.tri.Tri.TheVariants.{Either};
ghost use Rattle.value_set.specs.declared.form.Form.TheVariants as the_form;
ghost use Rattle.image.specs.Image.{byte_at};
ghost use Rattle.msp430_chip.specs.Interrupts as interrupts;
ghost use Rattle.msp430_chip.specs.State as states;
ghost use Rattle.msp430_entry.specs.Entry as entry;

use call_context::{Frame, Sequence};
use entry_value::Cells;
use image::Image;
use msp430_chip::Device;
use msp430_state::State;
use no_memory::Memory;
use std::alloc::Global;
use value_bits::Tri;
use value_set::{Form, Vs16};

/// An interrupt that may come.
#[derive(Clone, Copy, Debug, PartialEq, Eq)]
pub struct Coming {
    /// Its vector, below 14.
    pub vector: u8,
    /// SP when it comes, where that is one value.
    pub known_sp: Option<u16>,
    /// The values of SP when it comes.
    pub sp: Vs16,
}

/// Whether a bit may be 1.
fn may_be_set(bit: Tri) -> bool
    ensures { result ≡ entry.may_be_set bit }
{
    !matches!(bit, Tri::Zero)
}

/// What is known of GIE, bit 3 of SR.
fn gie(bits: &[Tri; 9]) -> Tri
    ensures { result ≡ slice_index_or bits.now 3 Either }
{
    bits[3]
}

/// Whether an interrupt may come at all: where GIE may be set, or may have been before the last instruction.
fn may_interrupt<M: Cells>(state: &State<M>) -> bool
    ensures { result ≡ entry.may_interrupt state.now }
{
    may_be_set(gie(&state.status.bits)) || may_be_set(state.late)
}

/// The address of a vector.
fn vector_address(vector: u8) -> u16
    requires { vector < 14 }
    ensures value { result ≡ interrupts.vector_address vector }
    ensures room { result < 65535 }
{
    0xFFE0 + 2 * vector as u16
}

/// Whether a vector is in the image, and not erased.
fn may_come(device: &Device, vector: u8) -> bool
    requires { vector < 14 }
    ensures { result ≡ interrupts.may_come device.now vector }
{
    let at = vector_address(vector);
    match (device.image.byte(at), device.image.byte(at + 1)) {
        (Some(low), Some(high)) => !(low == 0xFF && high == 0xFF),
        _ => false,
    }
}

/// Adds an interrupt at each of some values of SP.
fn add_each(all: &mut Sequence<Coming>, vector: u8, sps: &[u16]) -> Result<(), Memory>
    ensures { OnOk result (all.new ≡ all.old ++ entry.comings_at (the_form.Values sps.now) vector) }
{
    for sp in sps {
        all.push(Coming {
            vector,
            known_sp: Some(*sp),
            sp: Vs16::one(*sp),
        })?;
    }
    Ok(())
}

/// Adds an interrupt, where SP is one of a set.
fn add(all: &mut Sequence<Coming>, vector: u8, sp: &Vs16) -> Result<(), Memory>
    ensures { OnOk result (all.new ≡ all.old ++ entry.comings_at sp.now vector) }
{
    match sp.form() {
        Form::Values(values) => add_each(all, vector, values.as_slice()),
        Form::Run(_) => {
            all.push(Coming {
                vector,
                known_sp: None,
                sp: *sp,
            })?;
            Ok(())
        }
    }
}

/// Adds an interrupt, if it has a handler.
fn add_handled(
    all: &mut Sequence<Coming>,
    device: &Device,
    vector: u8,
    sp: &Vs16,
) -> Result<(), Memory>
    requires { vector < 14 }
    ensures { OnOk result (all.new ≡ all.old ++ (if interrupts.may_come device.now vector then entry.comings_at sp.now vector else [])) }
{
    if may_come(device, vector) {
        return add(all, vector, sp);
    }
    Ok(())
}

/// Each interrupt that has a handler, ascending, where SP is one of a set.
fn each(alloc: Global, device: &Device, sp: &Vs16) -> Result<Sequence<Coming>, Memory>
    ensures { IfOk result (λ all. all ≡ flat_map (entry.comings_at sp.now) (entry.vectors_of device.now)) }
{
    let mut all = Sequence::new(alloc);
    for vector in 0..14 {
        add_handled(&mut all, device, vector, sp)?;
    }
    Ok(all)
}

/// The interrupts that may come, ascending by vector and then by SP. It fails where memory runs out.
#[tactic(auto, unfolding(crate::specs::Entry::comings_of))]
pub fn comings<M: Cells>(
    alloc: Global,
    device: &Device,
    state: &State<M>,
) -> Result<Sequence<Coming>, Memory>
    ensures { IfOk result (λ all. all ≡ entry.comings_of device.now state.now) }
{
    if may_interrupt(state) {
        return each(alloc, device, &state.sp);
    }
    Ok(Sequence::new(alloc))
}

/// The frame of the handler.
pub fn frame_of(coming: &Coming) -> Frame
    ensures { result ≡ entry.frame_of_coming coming.now }
{
    Frame::Irq {
        vector: coming.vector,
        sp: coming.known_sp,
        level: 0,
    }
}

/// The word of the image at an even address, where it has both bytes, and else 0.
fn image_word(image: &Image, at: u16) -> u16
    requires { at < 65535 }
    ensures { result ≡ states.word_from (byte_at image.now at) (byte_at image.now (at + 1)) }
{
    match (image.byte(at), image.byte(at + 1)) {
        (Some(low), Some(high)) => low as u16 + 256 * high as u16,
        _ => 0,
    }
}

/// The address of a handler: the word of its vector without bit 0.
pub fn handler_of(device: &Device, vector: u8) -> u16
    requires { vector < 14 }
    ensures { result ≡ interrupts.handler_of device.now vector }
{
    let word = image_word(&device.image, vector_address(vector));
    word - word % 2
}
