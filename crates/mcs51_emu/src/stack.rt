//! The stack, calls and returns, and the other memories.

ghost use Rattle.std.specs.Prelude.{◌≡◌, ◌∷◌, ℕ, [], List, None, Option, ◌≤◌};
ghost use Rattle.choosing.specs.Choosing.{asked, asked_as};
ghost use Rattle.mcs51_decode.specs.declared.instr.Instr.TheVariants as instr;
ghost use Rattle.mcs51_chip.specs.declared.place.Access.TheVariants.{Internal};
ghost use Rattle.mcs51_chip.specs.declared.place.Address.TheVariants.{InRam};
ghost use Rattle.mcs51_chip.specs.Memory as memories;
ghost use Rattle.mcs51_chip.specs.State.{IsChipState};
ghost use Rattle.mcs51_chip.specs.Step as steps;
ghost use Rattle.mcs51_chip.specs.Step.{effect_of};
ghost use Rattle.mcs51_emu.specs.Listing.{Performs, effected, listed, shown};
ghost use Rattle.mcs51_emu.specs.Form.{unheld};

use crate::done::{Accesses, one_more, one_read, pointer_read, read_and_write};
use crate::memory::{
    pointed_by, pop_address, pop_byte, push_address, push_byte, read, read_code, top_of, write,
};
use crate::registers::data_pointer;
use choosing::Unused;
use mcs51_chip::{Access, Address, ChipState, direct_address};
use mcs51_decode::{CodeBase, External, Image, Working};

/// Two accesses of RAM, both reads or both writes.
fn two_of_ram(is_write: bool, first: u8, second: u8) -> Accesses
    ensures { listed result ≡ Internal is_write (InRam first) ∷ Internal is_write (InRam second) ∷ [] }
{
    let before = Access::Internal {
        write: is_write,
        address: Address::InRam(first),
    };
    let after = Access::Internal {
        write: is_write,
        address: Address::InRam(second),
    };
    one_more(Some(before), after)
}

/// What a call or an interrupt writes.
pub(crate) fn push_writes(s: &ChipState) -> Accesses
    ensures { listed result ≡ memories.push_writes s.now }
{
    two_of_ram(true, s.sp.wrapping_add(1), s.sp.wrapping_add(2))
}

/// What a return reads.
fn pop_reads(s: &ChipState) -> Accesses
    ensures { listed result ≡ memories.pop_reads s.now }
{
    two_of_ram(false, s.sp, s.sp.wrapping_sub(1))
}

/// A call of an address.
pub(crate) fn call(s: &mut ChipState, target: u16) -> Accesses
    ensures called { s.new ≡ steps.called target s.old }
    ensures accesses { listed result ≡ memories.push_writes s.old }
    ensures unheld { unheld s.new ≤ unheld s.old }
{
    let accesses = push_writes(s);
    push_address(s, s.pc);
    s.pc = target;
    accesses
}

/// RET.
pub(crate) fn go_back(s: &mut ChipState) -> Accesses
    ensures returned { s.new ≡ steps.returned s.old }
    ensures accesses { listed result ≡ memories.pop_reads s.old }
    ensures unheld { unheld s.new ≤ unheld s.old }
{
    let accesses = pop_reads(s);
    s.pc = pop_address(s);
    accesses
}

/// What PUSH stores; of SP it is the old value or the raised one.
#[tactic(auto, unfolding(mcs51_chip::specs::Step::push_value))]
fn push_value(s: &ChipState, direct: u8, choices: &mut Unused) -> Option<u8>
    requires { IsChipState s.now }
    ensures { asked result choices.new ≡ steps.push_value s.now direct choices.old }
{
    if direct == 0x81 {
        let option = choices.ask(2)? as u8;
        Some(s.sp.wrapping_add(option))
    } else {
        read(s, direct_address(direct), choices)
    }
}

/// PUSH.
#[tactic(auto, unfolding(mcs51_chip::specs::Step::effect_of, mcs51_chip::specs::Step::pushing))]
pub(crate) fn push(s: &mut ChipState, direct: u8, choices: &mut Unused) -> Option<Accesses>
    requires { IsChipState s.old }
    ensures exact { Performs (instr.Push direct) s.old choices.old result s.new choices.new }
    ensures kept { result ≡ None → s.new ≡ s.old }
    ensures unheld { unheld s.new ≤ unheld s.old }
{
    let x = push_value(s, direct, choices)?;
    let slot = Address::InRam(s.sp.wrapping_add(1));
    push_byte(s, x);
    Some(read_and_write(None, direct_address(direct), slot))
}

/// POP. Of SP it leaves the byte or one less.
#[tactic(auto, unfolding(mcs51_chip::specs::Step::effect_of, mcs51_chip::specs::Step::popping))]
pub(crate) fn pop(s: &mut ChipState, direct: u8, choices: &mut Unused) -> Option<Accesses>
    requires { IsChipState s.old }
    ensures exact { Performs (instr.Pop direct) s.old choices.old result s.new choices.new }
    ensures kept { result ≡ None → s.new ≡ s.old }
    ensures unheld { unheld s.new ≤ unheld s.old }
{
    let option = choices.ask_if(direct == 0x81, 2)? as u8;
    let slot = Address::InRam(s.sp);
    let address = direct_address(direct);
    let x = top_of(s).wrapping_sub(option);
    pop_byte(s);
    write(s, address, x);
    Some(read_and_write(None, slot, address))
}

/// MOVC.
#[tactic(auto, unfolding(mcs51_chip::specs::Step::effect_of, mcs51_chip::specs::Step::reading_code))]
pub(crate) fn move_code(
    image: &Image,
    s: &mut ChipState,
    base: CodeBase,
    choices: &mut Unused,
) -> Option<Accesses>
    requires { IsChipState s.old }
    ensures exact { asked_as (effected s.new) result choices.new ≡
        effect_of image.now s.old (instr.MoveCode base) choices.old }
    ensures kept { result ≡ None → s.new ≡ s.old }
    ensures unheld { unheld s.new ≤ unheld s.old }
{
    let base = match base {
        CodeBase::ProgramCounter => s.pc,
        CodeBase::DataPointer => data_pointer(s),
    };
    let at = base.wrapping_add(s.a as u16);
    let x = read_code(image, at, choices)?;
    s.a = x;
    Some(one_more(None, Access::Code { at }))
}

/// What finding a byte of external RAM reads.
fn external_read(s: &ChipState, external: External) -> Option<Access>
    ensures { shown result ≡ steps.external_reads s.now external }
{
    match external {
        External::DataPointer => None,
        External::Indirect(pointer) => pointer_read(s, Working::Indirect(pointer)),
    }
}

/// Where a byte of external RAM stands; by `@Ri` the high byte is any.
#[tactic(auto, unfolding(mcs51_chip::specs::Step::external_address))]
fn external_address(s: &ChipState, external: External, choices: &mut Unused) -> Option<u16>
    ensures { asked result choices.new ≡ steps.external_address s.now external choices.old }
{
    match external {
        External::DataPointer => Some(data_pointer(s)),
        External::Indirect(pointer) => {
            let high = choices.ask(256)? as u16;
            Some(pointed_by(s, pointer) as u16 + 256 * high)
        }
    }
}

/// MOVX to A.
#[tactic(auto, unfolding(mcs51_chip::specs::Step::effect_of, mcs51_chip::specs::Step::reading_external))]
pub(crate) fn read_external(
    s: &mut ChipState,
    external: External,
    choices: &mut Unused,
) -> Option<Accesses>
    requires { IsChipState s.old }
    ensures exact { Performs (instr.ReadExternal external) s.old choices.old
        result s.new choices.new }
    ensures kept { result ≡ None → s.new ≡ s.old }
    ensures unheld { unheld s.new ≤ unheld s.old }
{
    let before = external_read(s, external);
    let at = external_address(s, external, choices)?;
    let x = choices.ask(256)? as u8;
    s.a = x;
    Some(one_more(before, Access::External { write: false, at }))
}

/// MOVX of A. External RAM holds nothing here.
#[tactic(auto, unfolding(mcs51_chip::specs::Step::effect_of, mcs51_chip::specs::Step::writing_external))]
pub(crate) fn write_external(
    s: &ChipState,
    external: External,
    choices: &mut Unused,
) -> Option<Accesses>
    requires { IsChipState s.now }
    ensures exact { Performs (instr.WriteExternal external) s.now choices.old
        result s.now choices.new }
{
    let before = external_read(s, external);
    let at = external_address(s, external, choices)?;
    Some(one_more(before, Access::External { write: true, at }))
}
