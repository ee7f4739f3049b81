//! Instructions over what is known of a state.

ghost use Rattle.std.specs.Prelude.{◌≡◌, ◌≤◌, [], IfOk};
ghost use Rattle.msp430_decode.specs.Table.{IsInstr};
ghost use Rattle.msp430_chip.specs.Memory.{HasRam};
ghost use Rattle.msp430_flow.specs.Running as running;
ghost use Rattle.msp430_results.specs.Results.{HasWidth};

use abs_pages::CellPages;
use call_context::{Frame, Sequence};
use msp430_alu::{Here, Worked, double, push, single};
use msp430_branch::fact_behind;
use msp430_chip::Device;
use msp430_decode::{Destination, Instr, Operation, Register, SingleOperation, Source, Width};
use msp430_return::{goes_back, return_from_interrupt};
use msp430_state::{FlagFact, State};
use msp430_status::{single_status, status};
use no_memory::Memory;
use std::alloc::Global;
use value_set::Vs16;

/// The width of what an instruction stores; PUSH and CALL store words.
pub fn stored_width(instr: &Instr) -> Width
    ensures { result ≡ running.stored_width instr.now }
{
    match instr {
        Instr::Double { width, .. } => *width,
        Instr::Single {
            operation: SingleOperation::Push | SingleOperation::Call,
            ..
        } => Width::Word,
        Instr::Single { width, .. } => *width,
        Instr::Jump { .. } | Instr::ReturnFromInterrupt => Width::Word,
    }
}

/// A jump changes PC alone, and shows no access; its ways are told apart.
fn unchanged(alloc: Global, at: &State<CellPages>, next: u16) -> Result<Worked<CellPages>, Memory>
    ensures { IfOk result (λ worked. worked ≡ running.unchanged at.now next) }
{
    Ok(Worked {
        after: at.copy(alloc)?,
        next: Vs16::one(next),
        accesses: Sequence::new(alloc),
        store: None,
    })
}

/// An instruction with one operand, which pushes nothing.
fn plain_operand(
    alloc: Global,
    here: &Here<CellPages>,
    operation: SingleOperation,
    width: Width,
    operand: Source,
) -> Result<Worked<CellPages>, Memory>
    requires ram { HasRam here.now.device.now }
    requires width { HasWidth operation width }
    ensures { IfOk result (λ worked. worked ≡ running.single_or_status here.now.device.now here.now.framed here.now.state.now here.now.pc here.now.len
        operation width operand) }
{
    match operand {
        Source::Register(Register::Sr) => single_status(alloc, here, operation, width),
        _ => single(alloc, here, operation, width, operand),
    }
}

/// An instruction with one operand.
fn one_operand(
    alloc: Global,
    here: &Here<CellPages>,
    operation: SingleOperation,
    width: Width,
    operand: Source,
) -> Result<Worked<CellPages>, Memory>
    requires ram { HasRam here.now.device.now }
    requires row { IsInstr (Instr.Single operation width operand) }
    ensures { IfOk result (λ worked. worked ≡ running.one_operand here.now.device.now here.now.framed here.now.state.now here.now.pc here.now.len
        operation width operand) }
{
    match operation {
        SingleOperation::Push | SingleOperation::Call => {
            push(alloc, here, operation, width, operand)
        }
        _ => plain_operand(alloc, here, operation, width, operand),
    }
}

/// An instruction with two operands.
fn two_operands(
    alloc: Global,
    here: &Here<CellPages>,
    operation: Operation,
    width: Width,
    source: Source,
    destination: Destination,
) -> Result<Worked<CellPages>, Memory>
    requires ram { HasRam here.now.device.now }
    requires long { 2 ≤ here.now.len }
    ensures { IfOk result (λ worked. worked ≡ running.double_or_status here.now.device.now here.now.framed here.now.state.now here.now.pc here.now.len
        operation width source destination) }
{
    match destination {
        Destination::Register(Register::Sr) => status(alloc, here, operation, width, source),
        _ => double(alloc, here, operation, width, source, destination),
    }
}

/// What an instruction at an address makes of what is known of a state.
pub fn run(
    alloc: Global,
    device: &Device,
    framed: bool,
    at: &State<CellPages>,
    pc: u16,
    instr: &Instr,
) -> Result<Worked<CellPages>, Memory>
    requires ram { HasRam device.now }
    requires row { IsInstr instr.now }
    ensures { IfOk result (λ worked. worked ≡ running.worked device.now framed at.now pc instr.now) }
{
    let here = Here {
        device,
        framed,
        state: at,
        pc,
        len: instr.length(),
    };
    match *instr {
        Instr::Double {
            operation,
            width,
            source,
            destination,
        } => two_operands(alloc, &here, operation, width, source, destination),
        Instr::Single {
            operation,
            width,
            operand,
        } => one_operand(alloc, &here, operation, width, operand),
        Instr::Jump { .. } => unchanged(alloc, at, pc.wrapping_add(2)),
        Instr::ReturnFromInterrupt => return_from_interrupt(alloc, &here),
    }
}

/// Whether RETI goes back to where the interrupt of its frame came.
pub fn leaves_frame(device: &Device, frame: &Frame, at: &State<CellPages>, instr: &Instr) -> bool
    requires { HasRam device.now }
    ensures { result ≡ running.leaves_frame device.now frame.now at.now instr.now }
{
    match instr {
        Instr::ReturnFromInterrupt => goes_back(device, *frame, at),
        _ => false,
    }
}

/// What the flags say of a register behind an instruction: CMP and SUB with a constant leave a fact.
pub fn fact_of(instr: &Instr, after: &State<CellPages>) -> Option<FlagFact>
    ensures { result ≡ running.fact_of instr.now after.now }
{
    match *instr {
        Instr::Double {
            operation,
            width,
            source,
            destination,
        } => fact_behind(after, operation, width, source, destination),
        _ => after.fact,
    }
}
