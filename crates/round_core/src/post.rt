//! Posts.

ghost use Rattle.std.specs.Prelude.{◌≡◌, OnOk, OnErr, IfOk, IfErr};
ghost use Rattle.round_core.specs.Ahead.{AreBefore, IsAhead};
ghost use Rattle.book_rules.specs.Kept.{with_event, IsOutOf};
ghost use Rattle.book_rules.specs.Machine.{Out, all_raised, replay};
ghost use Rattle.round_core.specs.Prepared.{IsPrepared};
ghost use Rattle.round_core.specs.Raise.{held_rows, risen_over, ArePlaced};
ghost use Rattle.round_core.specs.Shown.{StaysShown};
ghost use Rattle.book_rules.specs.declared.event.Event.{Event};

use crate::ahead::Ahead;
use crate::book::Book;
use crate::parts::Parts;
use crate::place::Place;
use crate::raise::all_raised;
use crate::raised::Raised;
use crate::ticket::Done;
use book_rules::{Versions, outs_have_their_nodes};
use call_context::Unit;
use chip_analysis::{Chip, Work};
use no_memory::Memory;

/// All that may fail of a post, for want of memory alone: that of a unit at a place, which was claimed at these versions. It
/// changes nothing that the parts stand for, and answers the nodes that the post raises.
pub fn prepare_work<C: Chip>(
    chip: &C,
    parts: &mut Parts<C::Abs>,
    unit: &Unit,
    place: Place,
    claimed: Versions,
    work: &Work<C::Abs>,
    ahead: Ahead<C::Abs>,
) -> Result<Raised<C::Abs>, Memory>
    requires ahead { AreBefore (C.analysis (C.base chip.now)) parts.old.nodes.rows work.now.posts ahead }
    ensures shown { StaysShown parts.old parts.new }
    ensures journal { parts.new.turns.journal ≡ parts.old.turns.journal }
    ensures raised { IfOk result (λ raised. risen_over parts.old.nodes.rows raised
        ≡ all_raised (C.analysis (C.base chip.now)) parts.old.nodes.rows work.now.posts) }
    ensures prepared { IfOk result (λ raised. IsPrepared parts.old parts.new unit.now claimed work.now.waits
        (held_rows raised.rows.items)) }
    ensures placed { IfOk result (λ raised. ArePlaced parts.old.nodes.rows raised.rows.items) }
{
    let alloc = parts.nodes.allocator();
    let guess = parts.works.posted(place);
    let raised = all_raised(
        alloc,
        chip,
        &parts.nodes,
        work.posts.as_slice(),
        guess,
        ahead,
    )?;
    parts.prepare(unit, place, claimed, work.waits.as_slice(), &raised)?;
    Ok(raised)
}

/// The same of the work of a ticket.
fn prepare<C: Chip>(
    chip: &C,
    parts: &mut Parts<C::Abs>,
    done: &Done<C>,
    ahead: Ahead<C::Abs>,
) -> Result<Raised<C::Abs>, Memory>
    requires ahead { AreBefore (C.analysis (C.base chip.now)) parts.old.nodes.rows done.now.work.posts ahead }
    ensures shown { StaysShown parts.old parts.new }
    ensures journal { parts.new.turns.journal ≡ parts.old.turns.journal }
    ensures raised { IfOk result (λ raised. risen_over parts.old.nodes.rows raised
        ≡ all_raised (C.analysis (C.base chip.now)) parts.old.nodes.rows done.now.work.posts) }
    ensures prepared { IfOk result (λ raised. IsPrepared parts.old parts.new done.now.ticket.unit
        done.now.ticket.versions done.now.work.waits (held_rows raised.rows.items)) }
    ensures placed { IfOk result (λ raised. ArePlaced parts.old.nodes.rows raised.rows.items) }
{
    let (unit, place) = (done.ticket.unit(), done.ticket.place());
    prepare_work(
        chip,
        parts,
        unit,
        place,
        done.ticket.versions(),
        &done.work,
        ahead,
    )
}

impl<C: Chip> Book<C> {
    /// Takes in the work of a unit that is out. A refusal leaves the book as it was, and hands the work back.
    pub fn post(&mut self, chip: &C, done: Done<C>) -> Result<(), (Memory, Done<C>)>
        requires chip { C.base chip.now ≡ self.old.base }
        requires out { IsOutOf (replay (C.analysis self.old.base) self.old.journal) done.ticket }
        requires work { done.work ≡ (C.analysis self.old.base).work done.ticket.unit done.ticket.at done.ticket.exit }
        ensures posted { OnOk result (self.new ≡ with_event self.old (Event.Post done.ticket.seat done.ticket.unit)) }
        ensures refused { OnErr result (self.new ≡ self.old) }
        ensures handed_back { IfErr result (λ refused. refused.1 ≡ done) }
    {
        let alloc = self.parts.nodes.allocator();
        self.post_ahead(chip, done, Ahead::none(alloc))
    }

    /// The same, with what was looked ahead of the work's posts: that is taken where nodes haven't risen since the unit was
    /// claimed, and is worked out anew where they have.
    pub fn post_ahead(
        &mut self,
        chip: &C,
        done: Done<C>,
        ahead: Ahead<C::Abs>,
    ) -> Result<(), (Memory, Done<C>)>
        requires chip { C.base chip.now ≡ self.old.base }
        requires out { IsOutOf (replay (C.analysis self.old.base) self.old.journal) done.ticket }
        requires work { done.work ≡ (C.analysis self.old.base).work done.ticket.unit done.ticket.at done.ticket.exit }
        requires ahead { IsAhead (C.analysis self.old.base) done ahead }
        ensures posted { OnOk result (self.new ≡ with_event self.old (Event.Post done.ticket.seat done.ticket.unit)) }
        ensures refused { OnErr result (self.new ≡ self.old) }
        ensures handed_back { IfErr result (λ refused. refused.1 ≡ done) }
    {
        outs_have_their_nodes::<C>();
        match prepare(chip, &mut self.parts, &done, ahead) {
            Ok(raised) => {
                let Done { ticket, work } = done;
                let (seat, unit, versions, rest) = ticket.into_parts();
                self.spent.keep_rest(rest);
                let spent = &mut self.spent;
                self.parts.post(raised, seat, &unit, work, versions, spent);
                Ok(())
            }
            Err(memory) => Err((memory, done)),
        }
    }
}
