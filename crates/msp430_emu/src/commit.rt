//! The end of a step: what it computed is written.

ghost use Rattle.std.specs.Prelude.{◌≡◌, ◌<◌, All, length};
ghost use Rattle.msp430_chip.specs.State as states;
ghost use Rattle.msp430_emu.specs.Drafting as drafting;
ghost use Rattle.msp430_emu.specs.Planning as planning;

use crate::effect::{Plan, Store};
use crate::memory::{Layout, program_hit, store};
use msp430_chip::{ChipState, Ram};

/// The lowest byte of the program that a store would write, if there is a store.
fn hit_of(layout: &Layout, store: Option<Store>) -> Option<u16>
    ensures { result ≡ drafting.hit_of layout.now store }
{
    match store {
        Some(store) => program_hit(layout, store.width, store.at),
        None => None,
    }
}

/// The lowest byte of the program that the first store with such a byte would write.
pub(crate) fn plan_hit(layout: &Layout, plan: &Plan) -> Option<u16>
    ensures { result ≡ planning.plan_hit layout.now plan.now }
{
    match hit_of(layout, plan.first) {
        Some(at) => Some(at),
        None => hit_of(layout, plan.second),
    }
}

/// Makes a store, if there is one.
#[tactic(auto, using(crate::proofs::RamLemmas::bytes_kept))]
fn write(layout: &Layout, ram: &mut Ram, made: Option<Store>)
    requires { length ram.old ≡ states.ram_size layout.now }
    ensures stored { ram.new ≡ drafting.stored layout.now ram.old made }
    ensures length { length ram.new ≡ length ram.old }
    ensures bytes { All (λ b. b < 256) ram.old → All (λ b. b < 256) ram.new }
{
    if let Some(made) = made {
        store(layout, ram, made.width, made.at, made.value);
    }
}

/// Makes the stores of a step, and sets the registers.
pub(crate) fn commit(layout: &Layout, state: &mut ChipState, plan: &Plan)
    requires { length state.old.ram ≡ states.ram_size layout.now }
    ensures state { state.new ≡ planning.state_after layout.now state.old plan.now }
    ensures length { length state.new.ram ≡ length state.old.ram }
    ensures bytes { All (λ b. b < 256) state.old.ram → All (λ b. b < 256) state.new.ram }
{
    write(layout, &mut state.ram, plan.first);
    write(layout, &mut state.ram, plan.second);
    let registers = plan.registers;
    state.registers = registers;
    state.late = plan.late;
}
