//! What instructions make of what is known of a state.

ghost use Rattle.std.specs.Prelude.{◌≡◌, ℕ, ◌+◌, ◌<◌, ◌≤◌, ◌++◌, true, false, None, slice_index_or, OnOk, IfOk};
ghost use Rattle.value_bits.specs.declared.tri.Tri.TheVariants.{Either};
ghost use Rattle.value_set.specs.Form.{Has, IsNormal};
ghost use Rattle.msp430_chip.specs.Arithmetic as arithmetic;
ghost use Rattle.msp430_chip.specs.Memory as chip;
ghost use Rattle.msp430_chip.specs.Memory.{HasRam};
ghost use Rattle.msp430_alu.specs.Formats as formats;
ghost use Rattle.msp430_alu.specs.Operands as operands;
ghost use Rattle.msp430_results.specs.Results as results;
ghost use Rattle.msp430_results.specs.Words as words;

use crate::counting::counter_set;
use crate::formats::{
    called_next, is_doubled, lower, next_by, pushed, put, reads_destination, relation_of,
    see_lowered, show, store_of, writes_result,
};
use crate::here::Here;
use crate::operands::{destination_reach, source_reach};
use crate::reach::Reach;
use crate::reading::known_operand;
use crate::registers::plain;
use crate::writing::{grow, set_flag_bits};
use call_context::{Item, Sequence};
use entry_value::{Cells, Word};
use msp430_chip::Device;
use msp430_decode::{Destination, Operation, SingleOperation, Source, Width};
use msp430_results::{FlagBits, double_made, instruction_laws, single_made, twice_made};
use msp430_state::State;
use no_memory::Memory;
use std::alloc::Global;
use std::marker::Model;
use value_bits::Tri;
use value_set::Vs16;

/// What an instruction makes of what is known of a state.
#[derive(Drop)]
pub struct Worked<M: Cells> {
    /// What is known of the state behind it.
    pub after: State<M>,
    /// The addresses that it may go on to.
    pub next: Vs16,
    /// Its accesses to memory.
    pub accesses: Sequence<Item>,
    /// The addresses of its store, if it stores.
    pub store: Option<Vs16>,
}

impl<M: Cells> Model for Worked<M> {
    ghost use Rattle.msp430_alu.specs.Formats as formats;

    ghost Value = { formats.Worked };

    ghost view = { λ w. record { after = w.after; next = w.next; accesses = w.accesses; store = w.store } };
}

/// The set of a word is in normal form.
fn keeps_form(word: &Word)
    ensures { IsNormal 65536 word.now.set }
{
    let _form = word.set.form();
}

/// What a destination holds, where the operation reads it.
fn destination_word<M: Cells>(
    device: &Device,
    state: &State<M>,
    counted: &Vs16,
    operation: Operation,
    width: Width,
    reach: &Reach,
) -> Word
    requires { HasRam device.now }
    ensures { result ≡ formats.destination_word device.now state.now counted.now operation width reach.now }
{
    if reads_destination(operation) {
        return known_operand(device, state, counted, width, reach);
    }
    plain(Vs16::one(0))
}

/// What an operation makes of two operands, as a word, and the flags that it sets.
fn double_result(
    operation: Operation,
    width: Width,
    origin: Source,
    target: Destination,
    source: &Word,
    destination: &Word,
    carry: Tri,
) -> (Word, Option<FlagBits>)
    ensures word { result.0 ≡ words.written_word width (formats.made_of operation width origin target source.now destination.now carry).0 (formats.relation_of operation (formats.constant_of origin) source.now.entry destination.now.entry) }
    ensures flags { result.1 ≡ (formats.made_of operation width origin target source.now destination.now carry).1 }
    ensures byte { chip.size_of width ≡ 1 → (v : ℕ) → Has 65536 result.0.set v → v < 256 }
{
    instruction_laws();
    keeps_form(source);
    keeps_form(destination);
    let entry = relation_of(operation, origin, source.entry, destination.entry);
    if is_doubled(operation, origin, target) {
        return twice_made(width, destination, entry);
    }
    double_made(operation, width, source, destination, carry, entry)
}

/// What an operation makes of one operand, as a word, and the flags that it sets.
fn single_result(
    operation: SingleOperation,
    width: Width,
    operand: &Word,
    carry: Tri,
) -> (Word, Option<FlagBits>)
    requires { results.HasWidth operation width }
    ensures word { result.0 ≡ words.written_word width (results.single_made operation width (words.values_of width operand.now) carry).0 None }
    ensures flags { result.1 ≡ (results.single_made operation width (words.values_of width operand.now) carry).1 }
    ensures byte { chip.size_of width ≡ 1 → (v : ℕ) → Has 65536 result.0.set v → v < 256 }
{
    instruction_laws();
    keeps_form(operand);
    single_made(operation, width, operand, carry, None)
}

/// The state behind the write of a result, if the operation writes one.
fn put_result<M: Cells>(
    here: &Here<M>,
    state: State<M>,
    operation: Operation,
    width: Width,
    reach: &Reach,
    word: Word,
) -> Result<State<M>, Memory>
    requires ram { HasRam here.now.device.now }
    requires byte { chip.size_of width ≡ 1 → (v : ℕ) → Has 65536 word.set v → v < 256 }
    ensures { IfOk result (λ after. after ≡ formats.put_known_if (arithmetic.writes_result operation)
        here.now.device.now here.now.framed state width reach.now word) }
{
    if writes_result(operation) {
        return put(here, state, width, reach, word);
    }
    Ok(state)
}

/// The next address behind an operation with two operands.
fn double_next(operation: Operation, reach: &Reach, word: &Word, behind: u16) -> Vs16
    ensures { result ≡ formats.next_if (arithmetic.writes_result operation) reach.now word.now behind }
{
    if writes_result(operation) {
        return next_by(reach, word, behind);
    }
    Vs16::one(behind)
}

/// The addresses of the store of an operation with two operands.
fn double_store(device: &Device, operation: Operation, width: Width, reach: &Reach) -> Option<Vs16>
    requires { HasRam device.now }
    ensures { result ≡ formats.store_of (arithmetic.writes_result operation) device.now width reach.now }
{
    if writes_result(operation) {
        return store_of(device, width, reach);
    }
    None
}

/// Adds an access to a place, if there is one.
fn show_if<M: Cells>(
    accesses: &mut Sequence<Item>,
    is_one: bool,
    here: &Here<M>,
    write: bool,
    width: Width,
    reach: &Reach,
) -> Result<(), Memory>
    requires { HasRam here.now.device.now }
    ensures { OnOk result (accesses.new ≡ accesses.old ++ formats.access_if is_one here.now.device.now here.now.pc write width reach.now) }
{
    if is_one {
        return show(accesses, here, write, width, reach);
    }
    Ok(())
}

/// The accesses of an operation with two operands.
fn double_accesses<M: Cells>(
    alloc: Global,
    here: &Here<M>,
    operation: Operation,
    width: Width,
    from: &Reach,
    to: &Reach,
) -> Result<Sequence<Item>, Memory>
    requires { HasRam here.now.device.now }
    ensures { IfOk result (λ all. all ≡ formats.access_of here.now.device.now here.now.pc false width from.now
        ++ formats.access_if (arithmetic.reads_destination operation) here.now.device.now here.now.pc false width to.now
        ++ formats.access_if (arithmetic.writes_result operation) here.now.device.now here.now.pc true width to.now) }
{
    let mut all = Sequence::new(alloc);
    show(&mut all, here, false, width, from)?;
    let reads = reads_destination(operation);
    show_if(&mut all, reads, here, false, width, to)?;
    let writes = writes_result(operation);
    show_if(&mut all, writes, here, true, width, to)?;
    Ok(all)
}

/// The accesses of an instruction that reads at one place and writes at another.
fn two_accesses<M: Cells>(
    alloc: Global,
    here: &Here<M>,
    width: Width,
    from: &Reach,
    wide: Width,
    to: &Reach,
) -> Result<Sequence<Item>, Memory>
    requires { HasRam here.now.device.now }
    ensures { IfOk result (λ all. all ≡ formats.access_of here.now.device.now here.now.pc false width from.now
        ++ formats.access_of here.now.device.now here.now.pc true wide to.now) }
{
    let mut all = Sequence::new(alloc);
    show(&mut all, here, false, width, from)?;
    show(&mut all, here, true, wide, to)?;
    Ok(all)
}

/// The lowest bit.
fn lowest(bits: &[Tri; 9]) -> Tri
    ensures { result ≡ slice_index_or bits.now 0 Either }
{
    bits[0]
}

/// What is known of C.
fn carry_of<M: Cells>(state: &State<M>) -> Tri
    ensures { result ≡ formats.carry_of state.now }
{
    lowest(&state.status.bits)
}

/// What an instruction with two operands makes of what is known of a state. It has at least 2 bytes, which are those of the
/// first word. It fails where memory runs out.
#[tactic(auto, unfolding(crate::specs::Formats::double_worked))]
pub fn double<M: Cells>(
    alloc: Global,
    here: &Here<M>,
    operation: Operation,
    width: Width,
    source: Source,
    destination: Destination,
) -> Result<Worked<M>, Memory>
    requires ram { HasRam here.now.device.now }
    requires long { 2 ≤ here.now.len }
    ensures { IfOk result (λ worked. worked ≡ formats.double_worked here.now.device.now here.now.framed here.now.state.now here.now.pc here.now.len
        operation width source destination) }
{
    let counted = counter_set(here.pc, here.len, source, destination);
    let from = source_reach(here.pc, here.state, &counted, source);
    let origin = known_operand(here.device, here.state, &counted, width, &from);
    let mut after = here.state.copy(alloc)?;
    grow(&mut after, &counted, width, source);
    let to = destination_reach(here.pc, here.len, &after, &counted, destination);
    let target = destination_word(here.device, &after, &counted, operation, width, &to);
    let carry = carry_of(here.state);
    let (word, flags) = double_result(
        operation,
        width,
        source,
        destination,
        &origin,
        &target,
        carry,
    );
    let mut after = put_result(here, after, operation, width, &to, word)?;
    set_flag_bits(&mut after, flags);
    let accesses = double_accesses(alloc, here, operation, width, &from, &to)?;
    Ok(Worked {
        after,
        next: double_next(operation, &to, &word, here.behind()),
        accesses,
        store: double_store(here.device, operation, width, &to),
    })
}

/// What an instruction with one operand makes of what is known of a state, but for PUSH and CALL, which [`push`] makes. SWPB
/// and SXT work on words alone. It fails where memory runs out.
#[tactic(auto, unfolding(crate::specs::Formats::single_worked))]
pub fn single<M: Cells>(
    alloc: Global,
    here: &Here<M>,
    operation: SingleOperation,
    width: Width,
    operand: Source,
) -> Result<Worked<M>, Memory>
    requires ram { HasRam here.now.device.now }
    requires width { results.HasWidth operation width }
    ensures { IfOk result (λ worked. worked ≡ formats.single_worked here.now.device.now here.now.framed here.now.state.now here.now.pc here.now.len
        operation width operand) }
{
    let behind = here.behind();
    let counted = Vs16::one(behind);
    let from = source_reach(here.pc, here.state, &counted, operand);
    let held_so = known_operand(here.device, here.state, &counted, width, &from);
    let (word, flags) = single_result(operation, width, &held_so, carry_of(here.state));
    let mut after = here.state.copy(alloc)?;
    grow(&mut after, &counted, width, operand);
    let mut after = put(here, after, width, &from, word)?;
    set_flag_bits(&mut after, flags);
    let accesses = two_accesses(alloc, here, width, &from, width, &from)?;
    Ok(Worked {
        after,
        next: next_by(&from, &word, behind),
        accesses,
        store: store_of(here.device, width, &from),
    })
}

/// Where the operand of PUSH or CALL stands and what it holds. Behind it SP is as before.
fn formed<M: Cells>(
    device: &Device,
    state: &mut State<M>,
    pc: u16,
    counted: &Vs16,
    width: Width,
    operand: Source,
) -> (Reach, Word)
    requires { HasRam device.now }
    ensures kept { state.new ≡ state.old }
    ensures reach { result.0 ≡ operands.source_reach pc (formats.forming_known operand state.old) counted.now operand }
    ensures word { result.1 ≡ operands.operand_word device.now (formats.forming_known operand state.old) counted.now width result.0 }
{
    let sp = state.sp;
    see_lowered(operand, state);
    let from = source_reach(pc, state, counted, operand);
    let word = known_operand(device, state, counted, width, &from);
    state.sp = sp;
    (from, word)
}

/// What PUSH or CALL makes of what is known of a state. It fails where memory runs out.
#[tactic(auto, unfolding(crate::specs::Formats::push_worked))]
pub fn push<M: Cells>(
    alloc: Global,
    here: &Here<M>,
    operation: SingleOperation,
    width: Width,
    operand: Source,
) -> Result<Worked<M>, Memory>
    requires ram { HasRam here.now.device.now }
    ensures { IfOk result (λ worked. worked ≡ formats.push_worked here.now.device.now here.now.framed here.now.state.now here.now.pc here.now.len
        operation width operand) }
{
    let behind = here.behind();
    let counted = Vs16::one(behind);
    let mut after = here.state.copy(alloc)?;
    let (from, word) = formed(here.device, &mut after, here.pc, &counted, width, operand);
    grow(&mut after, &counted, width, operand);
    lower(&mut after);
    let top = Reach::InMemory(after.sp);
    let value = pushed(operation, width, word, behind);
    let after = put(here, after, Width::Word, &top, value)?;
    let accesses = two_accesses(alloc, here, width, &from, Width::Word, &top)?;
    Ok(Worked {
        after,
        next: called_next(operation, width, &word, behind),
        accesses,
        store: store_of(here.device, Width::Word, &top),
    })
}
