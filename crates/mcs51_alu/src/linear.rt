//! What the accumulator is by a byte of RAM.

ghost use Rattle.std.specs.Prelude.{◌≡◌, ◌<◌, ◌≤◌, map, length};
ghost use Rattle.value_set.specs.Form.{members};
ghost use Rattle.mcs51_alu.specs.LinearFacts as linear;

use arrayvec::ArrayVec;
use entry_value::{Byte, Cells};
use mcs51_decode::{Operation, Source};
use mcs51_state::{Addresses, LinearFact, State, addresses_of, ram_values};
use value_set::{Vs8, sets_have_members};

/// The only number of a set, if it has one alone.
fn only_of(set: &Vs8) -> Option<u8>
    ensures { result ≡ linear.only_of set.now }
{
    let _form = set.form();
    if set.count() == 1 {
        return Some(set.nth(0));
    }
    None
}

/// The only byte of RAM that an operand may be.
fn only_address(addresses: &Addresses) -> Option<u8>
    ensures { result ≡ linear.only_address addresses.now }
{
    match addresses {
        Addresses::InRam(set) => only_of(set),
        Addresses::InSfr(_) => None,
    }
}

/// The fact behind a move of a byte.
pub(crate) fn loaded_fact(addresses: &Addresses) -> Option<LinearFact>
    ensures { result ≡ linear.loaded_fact addresses.now }
{
    match only_address(addresses) {
        Some(place) => Some(LinearFact {
            place,
            factor: 1,
            added: 0,
        }),
        None => None,
    }
}

/// The fact behind ADD of a number.
fn raised_by(value: u8, fact: &LinearFact) -> LinearFact
    ensures { result ≡ linear.raised_by value fact.now }
{
    LinearFact {
        place: fact.place,
        factor: fact.factor,
        added: fact.added.wrapping_add(value),
    }
}

/// The fact behind ADD of a byte: it stays only where that is the byte it speaks of.
fn with_byte(at: Option<u8>, fact: &LinearFact) -> Option<LinearFact>
    ensures { result ≡ linear.with_byte at fact.now }
{
    match at {
        Some(at) if at == fact.place => Some(LinearFact {
            place: fact.place,
            factor: fact.factor.wrapping_add(1),
            added: fact.added,
        }),
        _ => None,
    }
}

/// The fact behind ADD.
fn fact_with<M: Cells>(state: &State<M>, origin: &Source, fact: &LinearFact) -> Option<LinearFact>
    ensures { result ≡ linear.fact_with state.now origin.now fact.now }
{
    match origin {
        Source::Immediate(value) => Some(raised_by(*value, fact)),
        Source::Memory(memory) => with_byte(only_address(&addresses_of(state, *memory)), fact),
    }
}

/// The fact behind an operation on the accumulator and a byte.
pub(crate) fn added_fact<M: Cells>(
    operation: Operation,
    state: &State<M>,
    origin: &Source,
) -> Option<LinearFact>
    ensures { result ≡ linear.added_fact operation state.now origin.now }
{
    match (operation, &state.linear_fact) {
        (Operation::Add, Some(fact)) => fact_with(state, origin, fact),
        _ => None,
    }
}

/// What the accumulator is where the byte is a number.
fn linear_value(fact: &LinearFact, v: u8) -> u8
    ensures { result ≡ linear.linear_value fact.now v }
{
    ((fact.factor as u32 * v as u32 + fact.added as u32) % 256) as u8
}

/// The same for each number of a set.
fn each_value(fact: &LinearFact, set: &Vs8) -> ArrayVec<u8, 256>
    ensures { result.items ≡ map (linear.linear_value fact.now) (members 256 set.now) }
{
    let mut all = ArrayVec::new();
    for place in 0..set.count() {
        all.push(linear_value(fact, set.nth(place)));
    }
    all
}

/// The accumulator by its fact.
#[tactic(auto, unfolding(crate::specs::LinearFacts::linear_values))]
fn linear_values<M: Cells>(state: &State<M>, fact: &LinearFact) -> Vs8
    ensures { result ≡ linear.linear_values state.now fact.now }
{
    sets_have_members();
    let set = ram_values(state, &Vs8::one(fact.place));
    let _form = set.form();
    match Vs8::gather(each_value(fact, &set).as_slice()) {
        Some(values) => values,
        None => unreachable!(),
    }
}

/// Where a fact stands, the accumulator is gathered from the byte.
pub(crate) fn gathered_by<M: Cells>(state: &State<M>, fact: &Option<LinearFact>, byte: Byte) -> Byte
    ensures { result ≡ linear.gathered_by state.now fact.now byte }
{
    match fact {
        None => byte,
        Some(fact) => Byte {
            set: linear_values(state, fact),
            entry: None,
        },
    }
}
