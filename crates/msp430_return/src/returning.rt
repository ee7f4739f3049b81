//! RETI over what is known of a state.

ghost use Rattle.std.specs.Prelude.{◌≡◌, false, IfOk};
ghost use Rattle.call_context.specs.declared.shown.Item.TheVariants as the_item;
ghost use Rattle.call_context.specs.declared.shown.Set.TheVariants.{W};
ghost use Rattle.chip_numbers.specs.declared.space.Space.TheVariants.{Mem};
ghost use Rattle.value_set.specs.Summing.{add, single};
ghost use Rattle.msp430_decode.specs.declared.instr.Width.TheVariants.{Word as Words};
ghost use Rattle.msp430_chip.specs.Memory.{HasRam};
ghost use Rattle.msp430_alu.specs.Memory as memory;
ghost use Rattle.msp430_return.specs.Return as returning;

use call_context::{Frame, Item, Sequence, Set, Space};
use entry_value::{Cells, Entry, Word};
use msp430_alu::{Here, Worked, even_parts, located, read_known, status_relation};
use msp430_chip::Device;
use msp430_decode::Width;
use msp430_state::{State, Status};
use no_memory::Memory;
use std::alloc::Global;
use value_bits::{Tri, w16};
use value_set::Vs16;

/// What may be read as a word at one of some addresses.
fn word_at<M: Cells>(device: &Device, state: &State<M>, at: &Vs16) -> Word
    requires { HasRam device.now }
    ensures { result ≡ memory.read_known device.now state.now Words (memory.located device.now Words at.now) }
{
    let at = located(device, Width::Word, at);
    read_known(device, state, Width::Word, &at)
}

/// SR from a word: its lowest nine bits.
fn status_from(word: &Word) -> Status
    ensures { result ≡ returning.status_from word.now }
{
    let all = w16::bits(&word.set);
    let mut bits = [Tri::Either; 9];
    bits.copy_from_slice(&all[..9]);
    Status {
        bits,
        entry: status_relation(&word.entry),
    }
}

/// Two above the stack pointer.
fn above(sp: &Vs16) -> Vs16
    ensures { result ≡ add 65536 sp.now (single 2) }
{
    sp.add(&Vs16::one(2))
}

/// The read of a word at one of some addresses.
fn read_of<M: Cells>(here: &Here<M>, at: &Vs16) -> Item
    requires { HasRam here.now.device.now }
    ensures { result ≡ the_item.Access here.now.pc Mem false 2 (W (memory.located here.now.device.now Words at.now)) }
{
    Item::Access {
        pc: here.pc,
        space: Space::Mem,
        write: false,
        size: 2,
        at: Set::W(located(here.device, Width::Word, at)),
    }
}

/// The reads of SR and of PC.
fn return_items<M: Cells>(alloc: Global, here: &Here<M>) -> Result<Sequence<Item>, Memory>
    requires { HasRam here.now.device.now }
    ensures { IfOk result (λ items. items ≡ returning.return_items here.now.device.now here.now.pc here.now.state.now.sp) }
{
    let state = here.state;
    let mut items = Sequence::new(alloc);
    items.push(read_of(here, &state.sp))?;
    items.push(read_of(here, &above(&state.sp)))?;
    Ok(items)
}

/// What RETI makes of what is known of a state. It copies the state once, and fails where memory runs out.
#[tactic(auto, unfolding(crate::specs::Return::return_worked))]
pub fn return_from_interrupt<M: Cells>(alloc: Global, here: &Here<M>) -> Result<Worked<M>, Memory>
    requires { HasRam here.now.device.now }
    ensures { IfOk result (λ worked. worked ≡ returning.return_worked here.now.device.now here.now.state.now here.now.pc) }
{
    let state = here.state;
    let status = word_at(here.device, state, &state.sp);
    let counter = word_at(here.device, state, &above(&state.sp));
    let mut after = state.copy(alloc)?;
    after.sp = state.sp.add(&Vs16::one(4));
    after.status = status_from(&status);
    after.fact = None;
    Ok(Worked {
        after,
        next: even_parts(&counter.set),
        accesses: return_items(alloc, here)?,
        store: None,
    })
}

/// Whether a relation is that of PC to itself, without a mask.
fn is_counter(entry: &Option<Entry>) -> bool
    ensures { result ≡ returning.is_counter entry.now }
{
    match entry {
        Some(entry) => entry.place == 0 && entry.and == 0xFFFF && entry.or == 0,
        None => false,
    }
}

/// Whether RETI in a frame goes back to where its interrupt came. Else it is a jump.
#[tactic(auto, unfolding(crate::specs::Return::goes_back))]
pub fn goes_back<M: Cells>(device: &Device, frame: Frame, state: &State<M>) -> bool
    requires { HasRam device.now }
    ensures { result ≡ returning.goes_back device.now frame state.now }
{
    match frame {
        Frame::Irq { sp: Some(sp), .. } => {
            state.sp.within(&Vs16::one(sp.wrapping_add(0xFFFC)))
                && is_counter(&word_at(device, state, &above(&state.sp)).entry)
        }
        _ => false,
    }
}
