//! What instructions with the destination SR make of what is known of a state.

ghost use Rattle.std.specs.Prelude.{◌≡◌, false, IfOk};
ghost use Rattle.msp430_chip.specs.Memory.{HasRam};
ghost use Rattle.msp430_alu.specs.Formats.{constant_of};
ghost use Rattle.msp430_status.specs.Status as the_status;

use crate::bits::{moved_bits, single_bits};
use call_context::Sequence;
use entry_value::{Cells, Entry, Word};
use msp430_alu::{
    Here, Worked, grow, known_operand, relation_of, show, source_reach, status_relation,
};
use msp430_decode::{Operation, Register, SingleOperation, Source, Width};
use msp430_results::kept_word;
use msp430_state::{State, Status};
use no_memory::Memory;
use std::alloc::Global;
use value_bits::{Tri, w16};
use value_set::Vs16;

/// What is known of the lowest nine bits of a word. A byte has the high byte 0.
fn lowest_bits(width: Width, word: &Word) -> [Tri; 9]
    ensures { result ≡ the_status.lowest_bits width word.now }
{
    let all = w16::bits(&kept_word(width, word, None).set);
    let mut low = [Tri::Either; 9];
    low.copy_from_slice(&all[..9]);
    low
}

/// What is known of the lowest nine bits of a source that holds a word. SR has the bits that it holds.
fn source_bits<M: Cells>(state: &State<M>, width: Width, source: Source, word: &Word) -> [Tri; 9]
    ensures { result ≡ the_status.source_bits state.now width source word.now }
{
    match source {
        Source::Register(Register::Sr) => state.status.bits,
        _ => lowest_bits(width, word),
    }
}

/// What the result of MOV, BIC or BIS came from, where that is SR. A byte tells nothing.
fn moved_relation(
    operation: Operation,
    width: Width,
    source: Source,
    given: Option<Entry>,
    held: Option<Entry>,
) -> Option<Entry>
    ensures { result ≡ the_status.moved_relation operation width (constant_of source) given held }
{
    match width {
        Width::Word => status_relation(&relation_of(operation, source, given, held)),
        Width::Byte => None,
    }
}

/// What MOV, BIC or BIS makes of SR, by the word of the source.
fn moved_status<M: Cells>(
    state: &State<M>,
    operation: Operation,
    width: Width,
    source: Source,
    word: &Word,
) -> Status
    ensures { result ≡ the_status.moved_status state.now operation width source word.now }
{
    let held = &state.status;
    let given = source_bits(state, width, source, word);
    Status {
        bits: moved_bits(operation, width, &given, &held.bits),
        entry: moved_relation(operation, width, source, word.entry, held.entry),
    }
}

/// What is known of SR behind an instruction that has it as its destination, by the word of the source. Behind one that sets
/// flags nothing is known.
fn status_behind<M: Cells>(
    state: &State<M>,
    operation: Operation,
    width: Width,
    source: Source,
    word: &Word,
) -> Status
    ensures { result ≡ the_status.status_behind state.now operation width source word.now }
{
    match operation {
        Operation::Mov | Operation::Bic | Operation::Bis => {
            moved_status(state, operation, width, source, word)
        }
        _ => Status {
            bits: [Tri::Either; 9],
            entry: None,
        },
    }
}

/// Writes SR. The fact goes.
fn put_status<M: Cells>(state: &mut State<M>, status: Status)
    ensures { state.new ≡ the_status.put_status state.old status }
{
    state.status = status;
    state.fact = None;
}

/// What an instruction with two operands and the destination SR makes of what is known of a state. It copies the state once,
/// and fails where memory runs out.
#[tactic(auto, unfolding(crate::specs::Status::status_worked))]
pub fn status<M: Cells>(
    alloc: Global,
    here: &Here<M>,
    operation: Operation,
    width: Width,
    source: Source,
) -> Result<Worked<M>, Memory>
    requires { HasRam here.now.device.now }
    ensures { IfOk result (λ worked. worked ≡ the_status.status_worked here.now.device.now here.now.framed here.now.state.now here.now.pc here.now.len
        operation width source) }
{
    let state = here.state;
    let counted = Vs16::one(here.behind());
    let from = source_reach(here.pc, state, &counted, source);
    let word = known_operand(here.device, state, &counted, width, &from);
    let behind = status_behind(state, operation, width, source, &word);
    let mut after = state.copy(alloc)?;
    grow(&mut after, &counted, width, source);
    put_status(&mut after, behind);
    let mut accesses = Sequence::new(alloc);
    show(&mut accesses, here, false, width, &from)?;
    Ok(Worked {
        after,
        next: counted,
        accesses,
        store: None,
    })
}

/// The same of an instruction with the one operand SR.
#[tactic(auto, unfolding(crate::specs::Status::single_status_worked))]
pub fn single_status<M: Cells>(
    alloc: Global,
    here: &Here<M>,
    operation: SingleOperation,
    width: Width,
) -> Result<Worked<M>, Memory>
    ensures { IfOk result (λ worked. worked
        ≡ the_status.single_status_worked here.now.device.now here.now.framed here.now.state.now here.now.pc here.now.len operation width) }
{
    let state = here.state;
    let mut after = state.copy(alloc)?;
    let bits = single_bits(operation, &state.status.bits);
    put_status(&mut after, Status { bits, entry: None });
    Ok(Worked {
        after,
        next: Vs16::one(here.behind()),
        accesses: Sequence::new(alloc),
        store: None,
    })
}
