//! Where instructions store, in RAM too, against rows worked by hand.

ghost use Rattle.std.specs.Prelude.{◌≡◌};
ghost use Rattle.msp430_chip.specs.Memory.{HasRam};

use super::given::{RAM, are_equal, device, from, mirrored_device, number, one, two};
use abs_memory::CellList;
use entry_value::{Cells, Entry, Word};
use msp430_alu::{Here, double, push};
use msp430_chip::Device;
use msp430_decode::{Constant, Destination, Operation, Register, SingleOperation, Source, Width};
use msp430_return::return_from_interrupt;
use msp430_state::State;
use msp430_status::status;
use std::alloc::Global;
use std::test::Fail;
use value_bits::Tri;
use value_set::Vs16;

fn plain(set: Vs16) -> Word {
    Word { set, entry: None }
}

/// SP is as told, R5 at a word of RAM, R6 at that or at the next one, R7 at that or at the program.
fn state(alloc: Global, sp: u16) -> Result<State<CellList>, Fail> {
    let mut state: State<CellList> = State::first(alloc, RAM)?;
    state.sp = one(sp);
    state.registers[1] = number(0x0200);
    state.registers[2] = plain(two(0x0200, 0x0202));
    state.registers[3] = plain(two(0x0200, 0xF000));
    Ok(state)
}

/// An instruction of four bytes at F000h.
fn here<'a>(device: &'a Device, state: &'a State<CellList>) -> Here<'a, CellList>
    ensures device { result.device.now ≡ device.now }
    ensures len { result.len ≡ 4 }
{
    Here {
        device,
        framed: false,
        state,
        pc: 0xF000,
        len: 4,
    }
}

/// Where MOV stores.
fn of_move(
    alloc: Global,
    device: &Device,
    width: Width,
    source: Source,
    destination: Destination,
) -> Result<Option<Vs16>, Fail>
    requires { HasRam device.now }
{
    let state = state(alloc, 0x0280)?;
    let here = here(device, &state);
    Ok(double(alloc, &here, Operation::Mov, width, source, destination)?.store)
}

#[test]
fn of_moves(rt: HostRuntime) -> Result<(), Fail> {
    use Destination::{Absolute, Indexed};
    use Width::{Byte, Word};
    let device = device(rt.alloc())?;
    let (register, offset) = (Register::R5, 0);
    let at_r5 = Indexed { register, offset };
    let register = Register::R6;
    let at_r6 = Indexed { register, offset };
    let both = two(0x0200, 0x0202);
    for (width, destination, store) in [
        (Word, at_r5, one(0x0200)),
        (Byte, at_r5, one(0x0200)),
        // At two addresses.
        (Word, at_r6, both),
        (Byte, at_r6, both),
        // Bit 0 of a word's address doesn't count.
        (Word, Absolute(0x0203), one(0x0202)),
        (Word, Absolute(0xFFFF), one(0xFFFE)),
        (Byte, Absolute(0xFFFF), one(0xFFFF)),
    ] {
        let source = Source::Immediate(0x1111);
        let found = of_move(rt.alloc(), &device, width, source, destination)?;
        are_equal(&rt, &[(found, Some(store))]);
    }
    Ok(())
}

#[test]
fn of_moves_to_the_mirror(rt: HostRuntime) -> Result<(), Fail> {
    use Width::{Byte, Word};
    let device = mirrored_device(rt.alloc())?;
    for (width, at, store) in [
        (Byte, 0x0200, 0x1100),
        (Byte, 0x0201, 0x1101),
        (Word, 0x0201, 0x1100),
        (Word, 0x09FE, 0x18FE),
        (Word, 0x0A00, 0x0A00),
        (Word, 0x1900, 0x1900),
    ] {
        let (source, destination) = (Source::Immediate(0x1111), Destination::Absolute(at));
        let found = of_move(rt.alloc(), &device, width, source, destination)?;
        are_equal(&rt, &[(found, Some(one(store)))]);
    }
    Ok(())
}

#[test]
fn none_of_reads(rt: HostRuntime) -> Result<(), Fail> {
    use Source::{Absolute, Indexed, Indirect, IndirectIncrement, Symbolic};
    use Width::{Byte, Word};
    let device = device(rt.alloc())?;
    let (register, offset) = (Register::R5, 1);
    let beside_r5 = Indexed { register, offset };
    for (width, source) in [
        (Byte, Indirect(Register::R7)),
        (Word, Indirect(Register::R7)),
        (Word, IndirectIncrement(Register::Sp)),
        (Byte, IndirectIncrement(Register::Sp)),
        (Word, beside_r5),
        (Byte, beside_r5),
        (Word, Absolute(0xF001)),
        (Word, Symbolic(0x1200)),
    ] {
        let destination = Destination::Register(Register::R5);
        let found = of_move(rt.alloc(), &device, width, source, destination)?;
        are_equal(&rt, &[(found, None)]);
    }
    Ok(())
}

/// Where PUSH or CALL stores.
fn of_push(
    alloc: Global,
    device: &Device,
    sp: u16,
    operation: SingleOperation,
    width: Width,
    operand: Source,
) -> Result<Option<Vs16>, Fail>
    requires { HasRam device.now }
{
    let state = state(alloc, sp)?;
    Ok(push(alloc, &here(device, &state), operation, width, operand)?.store)
}

#[test]
fn of_pushes(rt: HostRuntime) -> Result<(), Fail> {
    use SingleOperation::{Call, Push};
    use Source::{Immediate, IndirectIncrement, Register as In};
    use Width::{Byte, Word};
    let device = device(rt.alloc())?;
    for (operation, width, operand, store) in [
        (Push, Word, In(Register::Sp), 0x027E),
        (Push, Word, In(Register::R5), 0x027E),
        (Push, Byte, In(Register::R5), 0x027E),
        (Push, Word, IndirectIncrement(Register::Sp), 0x0280),
        (Call, Word, Immediate(0xF101), 0x027E),
    ] {
        let found = of_push(rt.alloc(), &device, 0x0280, operation, width, operand)?;
        are_equal(&rt, &[(found, Some(one(store)))]);
    }
    Ok(())
}

#[test]
fn of_pushes_to_the_mirror(rt: HostRuntime) -> Result<(), Fail> {
    let device = mirrored_device(rt.alloc())?;
    for (sp, store) in [(0x0202, 0x1100), (0x0200, 0x01FE), (0x1102, 0x1100)] {
        let (operation, operand) = (SingleOperation::Push, Source::Immediate(0x2222));
        let found = of_push(rt.alloc(), &device, sp, operation, Width::Word, operand)?;
        are_equal(&rt, &[(found, Some(one(store)))]);
    }
    Ok(())
}

/// Where an instruction that writes SR stores.
fn of_status(
    alloc: Global,
    device: &Device,
    operation: Operation,
    width: Width,
    source: Source,
) -> Result<Option<Vs16>, Fail>
    requires { HasRam device.now }
{
    let state = state(alloc, 0x0280)?;
    let here = here(device, &state);
    Ok(status(alloc, &here, operation, width, source)?.store)
}

#[test]
fn none_to_the_status_register(rt: HostRuntime) -> Result<(), Fail> {
    use Operation::{Add, Bic, Bis, Cmp, Mov};
    use Source::{Immediate, IndirectIncrement, Register as In};
    use Width::{Byte, Word};
    let device = device(rt.alloc())?;
    let (bit_0, bit_3) = (
        Source::Constant(Constant::One),
        Source::Constant(Constant::Eight),
    );
    for (operation, width, source) in [
        (Bic, Word, bit_0),
        (Bis, Word, bit_0),
        (Bic, Word, bit_3),
        (Bis, Word, bit_3),
        (Mov, Word, In(Register::R5)),
        (Mov, Word, In(Register::R7)),
        (Mov, Word, Immediate(0xFFFF)),
        (Mov, Word, Immediate(0xFE00)),
        (Mov, Word, IndirectIncrement(Register::R6)),
        (Bic, Word, In(Register::R5)),
        (Bis, Word, In(Register::R5)),
        (Mov, Word, In(Register::Sr)),
        (Mov, Byte, Immediate(0xFFFF)),
        (Mov, Byte, IndirectIncrement(Register::R6)),
        (Bic, Byte, bit_0),
        (Bis, Byte, bit_3),
        (Add, Byte, bit_0),
        (Cmp, Word, bit_0),
    ] {
        let found = of_status(rt.alloc(), &device, operation, width, source)?;
        are_equal(&rt, &[(found, None)]);
    }
    Ok(())
}

/// Whether an interrupt that came late may still come behind RETI, which takes this word for SR.
fn late_behind(alloc: Global, device: &Device, word: Word) -> Result<Tri, Fail>
    requires { HasRam device.now }
{
    let mut state = state(alloc, 0x0280)?;
    state.late = Tri::One;
    state.cells.write_one(0x0280, 2, word)?;
    let worked = return_from_interrupt(alloc, &here(device, &state))?;
    Ok(worked.after.late)
}

/// An interrupt that came late stays so behind RETI, whatever SR was.
#[test]
fn late_behind_a_return(rt: HostRuntime) -> Result<(), Fail> {
    let device = device(rt.alloc())?;
    let any = Vs16::any();
    let set_bits = Some(Entry {
        place: 2,
        and: 0xFFFF,
        or: 0x8008,
    });
    for (set, entry) in [
        (one(0x0109), None),
        (two(0x0008, 0x0009), None),
        (any, from(2, 0xFFFF)),
        (any, from(2, 0xFFEF)),
        (any, from(2, 0x00F7)),
        (any, set_bits),
        (any, from(4, 0xFFFF)),
    ] {
        let late = late_behind(rt.alloc(), &device, Word { set, entry })?;
        are_equal(&rt, &[(late, Tri::One)]);
    }
    Ok(())
}
