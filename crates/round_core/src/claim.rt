//! Claims and give-backs.

ghost use Rattle.std.specs.Option.{option_copied};
ghost use Rattle.std.specs.Prelude.{◌≡◌, IfOk, IsSome, OnErr};
ghost use Rattle.round_core.specs.Answers.{AnswersClaim};
ghost use Rattle.book_rules.specs.Kept.{with_event, IsOutOf};
ghost use Rattle.book_rules.specs.Machine.{inputs_of, replay};
ghost use Rattle.round_core.specs.Tickets.{IsTicketOf};
ghost use Rattle.book_rules.specs.declared.event.Event.{Event};

use crate::book::Book;
use crate::inputs::inputs_of;
use crate::met::{Met, met_by};
use crate::nodes::Nodes;
use crate::parts::Parts;
use crate::place::Place;
use crate::ticket::{Claimed, Ticket};
use call_context::Unit;
use chip_analysis::Chip;
use no_memory::Memory;
use std::alloc::Global;

/// A copy of a state, where there is one.
fn copy_of<C: Chip>(
    alloc: Global,
    chip: &C,
    state: Option<&C::Abs>,
) -> Result<Option<C::Abs>, Memory>
    ensures { IfOk result (λ copy. copy ≡ option_copied state.entry) }
{
    match state {
        Some(state) => Ok(Some(chip.copy(alloc, state)?)),
        None => Ok(None),
    }
}

/// What the nodes hold that the last work of the unit of a place posted to, or nothing of them.
fn met_at<C: Chip>(
    alloc: Global,
    chip: &C,
    parts: &Parts<C::Abs>,
    unit: &Unit,
    place: Place,
    meets: bool,
) -> Result<Met<C::Abs>, Memory>
    ensures { IfOk result (λ met. met ≡ parts.now.nodes.rows) }
{
    if !meets {
        return Ok(Met::none(alloc, &parts.nodes));
    }
    match parts.works.find(unit, place) {
        Some((_, work, _)) => {
            let guess = parts.works.posted(place);
            met_by(alloc, chip, &parts.nodes, work.posts.as_slice(), guess)
        }
        None => Ok(Met::none(alloc, &parts.nodes)),
    }
}

/// The ticket of the unit of a place, with copies of its input states.
fn ticket_of<C: Chip>(
    alloc: Global,
    chip: &C,
    nodes: &Nodes<C::Abs>,
    seat: u32,
    unit: &Unit,
    place: Place,
    met: Met<C::Abs>,
) -> Result<Ticket<C>, Memory>
    requires inputs { IsSome (inputs_of nodes.now.rows unit.now) }
    requires met { met ≡ nodes.now.rows }
    ensures { IfOk result (IsTicketOf nodes.now.rows seat unit.now) }
{
    let (at, exit, versions) = inputs_of(nodes, unit, place);
    let at = chip.copy(alloc, at)?;
    let exit = copy_of(alloc, chip, exit)?;
    Ok(Ticket::new(seat, *unit, place, at, exit, versions, met))
}

/// The same with what nodes hold, if it is asked for and some unit is out.
fn ticket_at<C: Chip>(
    chip: &C,
    parts: &Parts<C::Abs>,
    seat: u32,
    unit: &Unit,
    place: Place,
    meets: bool,
) -> Result<Ticket<C>, Memory>
    requires { IsSome (inputs_of parts.now.nodes.rows unit.now) }
    ensures { IfOk result (IsTicketOf parts.now.nodes.rows seat unit.now) }
{
    let alloc = parts.nodes.allocator();
    // Who works alone makes the posts before anyone else looks at the book: there is nothing to look ahead of.
    let meets = meets && !parts.turns.is_empty();
    let met = met_at(alloc, chip, parts, unit, place, meets)?;
    ticket_of(alloc, chip, &parts.nodes, seat, unit, place, met)
}

impl<C: Chip> Book<C> {
    /// Takes out the first unit that can be claimed, with what nodes hold or without.
    fn claim_with(&mut self, chip: &C, seat: u32, meets: bool) -> Result<Claimed<C>, Memory>
        requires { C.base chip.now ≡ self.old.base }
        ensures answer { IfOk result (λ claimed. AnswersClaim (C.analysis self.old.base) self.old self.new seat claimed) }
        ensures refused { OnErr result (self.new ≡ self.old) }
    {
        let Some((place, unit)) = self.parts.take_first()? else {
            return Ok(if self.parts.turns.is_empty() {
                Claimed::Finished
            } else {
                Claimed::Idle
            });
        };
        let ticket = ticket_at(chip, &self.parts, seat, &unit, place, meets)?;
        if let Err(memory) = self.parts.take_out(seat, &unit, place) {
            drop(ticket);
            return Err(memory);
        }
        Ok(Claimed::Ticket(ticket))
    }

    /// Takes out the first unit that can be claimed. A refusal leaves the book as it was.
    pub fn claim(&mut self, chip: &C, seat: u32) -> Result<Claimed<C>, Memory>
        requires { C.base chip.now ≡ self.old.base }
        ensures answer { IfOk result (λ claimed. AnswersClaim (C.analysis self.old.base) self.old self.new seat claimed) }
        ensures refused { OnErr result (self.new ≡ self.old) }
    {
        self.claim_with(chip, seat, false)
    }

    /// The same, and where other units are out the ticket takes along what those nodes hold that the unit's last work posted to,
    /// so that its worker can look ahead.
    pub fn claim_to_look_ahead(&mut self, chip: &C, seat: u32) -> Result<Claimed<C>, Memory>
        requires { C.base chip.now ≡ self.old.base }
        ensures answer { IfOk result (λ claimed. AnswersClaim (C.analysis self.old.base) self.old self.new seat claimed) }
        ensures refused { OnErr result (self.new ≡ self.old) }
    {
        self.claim_with(chip, seat, true)
    }

    /// Puts a unit back without work.
    pub fn give_back(&mut self, ticket: Ticket<C>)
        requires { IsOutOf (replay (C.analysis self.old.base) self.old.journal) ticket }
        ensures { self.new ≡ with_event self.old (Event.GiveBack ticket.seat ticket.unit) }
    {
        let (seat, unit, _, _) = ticket.into_parts();
        self.parts.give_back(seat, &unit);
    }
}
