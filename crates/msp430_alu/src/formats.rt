//! What the formats of instructions write, show and go on to.

ghost use Rattle.std.specs.Prelude.{◌≡◌, ℕ, ◌<◌, ◌≤◌, ◌++◌, true, IfOk, OnOk};
ghost use Rattle.value_set.specs.Form.{Has};
ghost use Rattle.msp430_chip.specs.Arithmetic as arithmetic;
ghost use Rattle.msp430_chip.specs.Memory as chip;
ghost use Rattle.msp430_chip.specs.Memory.{HasRam};
ghost use Rattle.msp430_chip.specs.Step as step;
ghost use Rattle.msp430_alu.specs.Formats as formats;

use crate::here::Here;
use crate::operands::located;
use crate::reach::Reach;
use crate::reading::size_of;
use crate::registers::{even_parts, plain};
use crate::stores::store;
use crate::writing::put_register;
use call_context::{Item, Sequence, Set, Space};
use entry_value::{Cells, Entry, Word};
use msp430_chip::Device;
use msp430_decode::{Destination, Operation, Register, SingleOperation, Source, Width};
use msp430_results::kept_word;
use msp430_state::State;
use no_memory::Memory;
use value_bits::w16;
use value_set::{Vs8, Vs16};

/// Whether an operation reads its destination.
pub(crate) fn reads_destination(operation: Operation) -> bool
    ensures { result ≡ arithmetic.reads_destination operation }
{
    !matches!(operation, Operation::Mov)
}

/// Whether an operation writes its result.
pub(crate) fn writes_result(operation: Operation) -> bool
    ensures { result ≡ arithmetic.writes_result operation }
{
    !matches!(operation, Operation::Cmp | Operation::Bit)
}

/// The state behind a write of a word to a place.
pub(crate) fn put<M: Cells>(
    here: &Here<M>,
    mut state: State<M>,
    width: Width,
    reach: &Reach,
    word: Word,
) -> Result<State<M>, Memory>
    requires ram { HasRam here.now.device.now }
    requires byte { chip.size_of width ≡ 1 → (v : ℕ) → Has 65536 word.set v → v < 256 }
    ensures { IfOk result (λ after. after ≡ formats.put_known here.now.device.now here.now.framed state width reach.now word) }
{
    match reach {
        Reach::InRegister(register) => put_register(&mut state, *register, word),
        Reach::InMemory(set) => {
            let at = located(here.device, width, set);
            if let Err(memory) = store(here.device, here.framed, &mut state, width, &at, word) {
                drop(state);
                return Err(memory);
            }
        }
        Reach::Fixed(_) => {}
    }
    Ok(state)
}

/// The next address behind a write to a place: what is written to PC, and else what follows.
pub(crate) fn next_by(reach: &Reach, word: &Word, behind: u16) -> Vs16
    ensures { result ≡ formats.next_by reach.now word.now behind }
{
    match reach {
        Reach::InRegister(Register::Pc) => even_parts(&word.set),
        _ => Vs16::one(behind),
    }
}

/// The addresses of a store.
pub(crate) fn store_of(device: &Device, width: Width, reach: &Reach) -> Option<Vs16>
    requires { HasRam device.now }
    ensures { result ≡ formats.store_of true device.now width reach.now }
{
    match reach {
        Reach::InMemory(set) => Some(located(device, width, set)),
        _ => None,
    }
}

/// Adds the access to a place, if that is in memory.
pub fn show<M: Cells>(
    accesses: &mut Sequence<Item>,
    here: &Here<M>,
    write: bool,
    width: Width,
    reach: &Reach,
) -> Result<(), Memory>
    requires { HasRam here.now.device.now }
    ensures { OnOk result (accesses.new ≡ accesses.old ++ formats.access_of here.now.device.now here.now.pc write width reach.now) }
{
    if let Reach::InMemory(set) = reach {
        accesses.push(Item::Access {
            pc: here.pc,
            space: Space::Mem,
            write,
            size: size_of(width),
            at: Set::W(located(here.device, width, set)),
        })?;
    }
    Ok(())
}

/// The number that a source is, if it is one.
fn constant_of(source: Source) -> Option<u16>
    ensures { result ≡ formats.constant_of source }
{
    match source {
        Source::Immediate(value) => Some(value),
        Source::Constant(constant) => Some(constant.value()),
        _ => None,
    }
}

/// A relation behind an AND with a constant.
fn masked_and(constant: Option<u16>, entry: Option<Entry>) -> Option<Entry>
    ensures { result ≡ formats.masked_and constant entry }
{
    match (constant, entry) {
        (Some(mask), Some(entry)) => Some(entry.mask_and(mask)),
        _ => None,
    }
}

/// A relation behind a clearing of the bits of a constant.
fn masked_clear(constant: Option<u16>, entry: Option<Entry>) -> Option<Entry>
    ensures { result ≡ formats.masked_clear constant entry }
{
    match (constant, entry) {
        (Some(mask), Some(entry)) => Some(entry.mask_and(0xFFFF - mask)),
        _ => None,
    }
}

/// A relation behind an OR with a constant.
fn masked_or(constant: Option<u16>, entry: Option<Entry>) -> Option<Entry>
    ensures { result ≡ formats.masked_or constant entry }
{
    match (constant, entry) {
        (Some(mask), Some(entry)) => Some(entry.mask_or(mask)),
        _ => None,
    }
}

/// The relation of a result, by those of the source and of the destination: copies keep one, AND, BIC and BIS with a constant
/// mask it, and all else drops it.
pub fn relation_of(
    operation: Operation,
    origin: Source,
    source: Option<Entry>,
    destination: Option<Entry>,
) -> Option<Entry>
    ensures { result ≡ formats.relation_of operation (formats.constant_of origin) source destination }
{
    match operation {
        Operation::Mov => source,
        Operation::And => masked_and(constant_of(origin), destination),
        Operation::Bic => masked_clear(constant_of(origin), destination),
        Operation::Bis => masked_or(constant_of(origin), destination),
        _ => None,
    }
}

/// Whether an instruction is an ADD of a register to itself.
pub(crate) fn is_doubled(operation: Operation, source: Source, destination: Destination) -> bool
    ensures { result ≡ formats.is_doubled operation source destination }
{
    match (operation, source, destination) {
        (Operation::Add, Source::Register(register), Destination::Register(other)) => {
            register.number() == other.number()
        }
        _ => false,
    }
}

/// Lowers SP by 2.
pub(crate) fn lower<M: Cells>(state: &mut State<M>)
    ensures { state.new ≡ formats.lowered_known state.old }
{
    state.sp = even_parts(&state.sp.add(&Vs16::one(0xFFFE)));
}

/// Whether an operand is formed by SP, without growth.
fn is_formed_by_stack(operand: Source) -> bool
    ensures { result ≡ step.is_formed_by_stack operand }
{
    matches!(
        operand,
        Source::Register(Register::Sp)
            | Source::Indexed {
                register: Register::Sp,
                ..
            }
            | Source::Indirect(Register::Sp)
    )
}

/// An operand that is formed by SP, without growth, sees SP and the lowered SP.
pub(crate) fn see_lowered<M: Cells>(operand: Source, state: &mut State<M>)
    ensures { state.new ≡ formats.forming_known operand state.old }
{
    if is_formed_by_stack(operand) {
        let lowered = state.sp.add(&Vs16::one(0xFFFE));
        state.sp = even_parts(&state.sp.join(&lowered));
    }
}

/// What is pushed: by CALL the address behind it, by PUSH the operand as it is, and by PUSH.B its byte below any byte.
pub(crate) fn pushed(operation: SingleOperation, width: Width, x: Word, behind: u16) -> Word
    ensures { result ≡ formats.pushed_known operation width x behind }
{
    match (operation, width) {
        (SingleOperation::Call, _) => plain(Vs16::one(behind)),
        (_, Width::Word) => x,
        (_, Width::Byte) => plain(w16::pair(&w16::low(&x.set), &Vs8::any())),
    }
}

/// The next address behind PUSH or CALL.
pub(crate) fn called_next(operation: SingleOperation, width: Width, x: &Word, behind: u16) -> Vs16
    ensures { result ≡ formats.called_next operation width x.now behind }
{
    match operation {
        SingleOperation::Call => even_parts(&kept_word(width, x, None).set),
        _ => Vs16::one(behind),
    }
}
