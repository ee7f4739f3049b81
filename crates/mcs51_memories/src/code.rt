//! MOVC.

ghost use Rattle.std.specs.Prelude.{◌≡◌, ◌++◌, OnOk, drop, length};
ghost use Rattle.value_set.specs.Form.{members};
ghost use Rattle.mcs51_state.specs.Joined.{all_joined};
ghost use Rattle.mcs51_memories.specs.Codes as codes;

use call_context::{Item, Sequence, Set, Space};
use entry_value::{Byte, Cells};
use image::Image;
use mcs51_decode::CodeBase;
use mcs51_state::{State, jump_targets, set_accumulator};
use no_memory::Memory;
use value_bits::w16;
use value_set::{Vs8, Vs16};

/// The byte of the program at an address.
fn code_set(image: &Image, at: u16) -> Vs8
    ensures { result ≡ codes.code_set image.now at }
{
    match image.byte(at) {
        Some(byte) => Vs8::one(byte),
        None => Vs8::any(),
    }
}

/// The bytes from the second address on, joined with the first one.
fn joined(image: &Image, at: &Vs16, count: u32, first: Vs8) -> Vs8
    requires { count ≡ length (members 65536 at.now) }
    ensures { result ≡ all_joined (codes.code_set image.now) first (drop 1 (members 65536 at.now)) }
{
    let mut set = first;
    for place in 1..count {
        set = set.join(&code_set(image, at.nth(place)));
    }
    set
}

/// What a byte of the program may be at one of some addresses.
#[tactic(auto, unfolding(crate::specs::Codes::code_values), using(mcs51_state::specs::JoinedFacts::any_is))]
fn code_values(image: &Image, at: &Vs16) -> Vs8
    ensures { result ≡ codes.code_values image.now at.now }
{
    let count = at.count();
    if count > 256 {
        return Vs8::any();
    }
    joined(image, at, count, code_set(image, at.nth(0)))
}

/// Where MOVC may read, with the address behind the instruction.
fn code_addresses<M: Cells>(state: &State<M>, base: CodeBase, next: u16) -> Vs16
    ensures { result ≡ codes.code_addresses base next state.now }
{
    match base {
        CodeBase::ProgramCounter => { Vs16::one(next).add(&w16::pair(&state.a.set, &Vs8::one(0))) }
        CodeBase::DataPointer => jump_targets(state),
    }
}

/// MOVC, with the address behind it.
#[tactic(auto, unfolding(crate::specs::Codes::code_loaded))]
pub fn load_code<M: Cells>(image: &Image, state: &mut State<M>, base: CodeBase, next: u16)
    ensures { state.new ≡ codes.code_loaded image.now base next state.old }
{
    let byte = Byte {
        set: code_values(image, &code_addresses(state, base, next)),
        entry: None,
    };
    set_accumulator(state, &byte);
}

/// Adds the access of MOVC, with the address behind it. Behind an error the items are of no use.
pub fn show_code<M: Cells>(
    items: &mut Sequence<Item>,
    pc: u16,
    state: &State<M>,
    base: CodeBase,
    next: u16,
) -> Result<(), Memory>
    ensures { OnOk result (items.new ≡ items.old ++ codes.code_items pc base next state.now) }
{
    items.push(Item::Access {
        pc,
        space: Space::Code,
        write: false,
        size: 1,
        at: Set::W(code_addresses(state, base, next)),
    })?;
    Ok(())
}
