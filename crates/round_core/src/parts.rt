//! What a book keeps.

ghost use Rattle.std.specs.Prelude.{count_by, min, false, filter, ◌≡◌, ◌<◌, ◌≤◌, length, ◌++◌, ◌∷◌, [], None, IsSome, OnErr, Some, IfOk, IfSome, MatchOption, OnOk, IsTrue, is_some, map, not, ◌↔◌, ◌^◌, ℕ};
ghost use Rattle.std.specs.List.{AllByRecursion};
ghost use Rattle.std.specs.Option.{option_map};
ghost use Rattle.round_core.specs.Agenda.{AreDifferent};
ghost use Rattle.book_rules.specs.Claimable.{HasAtLeast};
ghost use Rattle.round_core.specs.Former.{is_no_unit};
ghost use Rattle.book_rules.specs.Kept.{is_live};
ghost use Rattle.round_core.specs.Claims.{one_of, back_of, unit_at, due_of, claimable_at, placed, IsNext};
ghost use Rattle.book_rules.specs.Machine.{BookState, Out, done_at, out_at, versions_of, with_done, without, IsClaimable, IsFirst, IsFinished, NoneClaimable, HasClaimable};
ghost use Rattle.round_core.specs.Turns.{place_out, TakesHome};
ghost use Rattle.round_core.specs.Opening.{one_node};
ghost use Rattle.round_core.specs.Shown.{Shows, StaysShown, found_at, is_new_return};
ghost use Rattle.round_core.specs.Prepared.{IsPrepared};
ghost use Rattle.round_core.specs.Raise.{held_rows, risen_over, ArePlaced, RisesOver};

use crate::agenda::Agenda;
use crate::candidates::add_all;
use crate::expect::{expect_raised, expect_unit};
use crate::nodes::Nodes;
use crate::place::Place;
use crate::raised::Raised;
use crate::spent::Spent;
use crate::turns::Turns;
use crate::works::Works;
use book_rules::{Event, Versions};
use call_context::{Frame, Node, Unit};
use chip_analysis::Work;
use no_memory::Memory;
use std::alloc::Global;

/// The nodes with their states, the last works of units, the units that are out with the journal, and the units that
/// may be claimable.
#[derive(Drop)]
pub struct Parts<A> {
    pub nodes: Nodes<A>,
    pub works: Works<A>,
    pub turns: Turns,
    pub agenda: Agenda,
}

/// The unit of a location's own work.
fn one_of(node: &Node) -> Option<Unit>
    ensures { result ≡ one_of node.now }
{
    match node {
        Node::At(..) => Some(Unit::One(*node)),
        Node::Exit(..) => None,
    }
}

impl<A: Drop> Parts<A> {
    /// One node that rose once, and nothing else.
    pub fn open(alloc: Global, node: Node, state: A) -> Result<Self, Memory>
        ensures journal { IfOk result (λ parts. parts.turns.journal ≡ []) }
        ensures shown { IfOk result (λ parts. Shows (one_node node state) parts) }
    {
        let nodes = Nodes::of_one(alloc, node, state)?;
        let agenda = Agenda::of_one(alloc, &node)?;
        Ok(Parts {
            nodes,
            works: Works::new(alloc),
            turns: Turns::new(alloc),
            agenda,
        })
    }
}

impl<A> Parts<A> {
    /// The return from an exit to the location at a place, if that waits for the exit's frame.
    fn back_of(&self, place: usize, node: &Node, exit: &Node) -> Option<Unit>
        ensures { result ≡ back_of self.now.works.rows node.now exit.now }
    {
        match (node, exit) {
            (Node::At(..), Node::Exit(_, frame)) => {
                if self.works.waits_for(place, node, frame) {
                    Some(Unit::Back(*node, *exit))
                } else {
                    None
                }
            }
            _ => None,
        }
    }

    /// The unit of a place, and the present versions of its inputs.
    fn unit_at(&self, place: Place) -> Option<(Unit, Versions)>
        ensures unit { option_map (λ found. found.0) result ≡ unit_at self.now.nodes.rows self.now.works.rows place }
        ensures versions { IfSome result (λ found. found.1 ≡ versions_of self.now.nodes.rows found.0) }
    {
        match place {
            Place::One(node) => {
                if let Some((node, _, at)) = self.nodes.at(node)
                    && let Some(unit) = one_of(node)
                {
                    Some((unit, Versions { at, exit: 0 }))
                } else {
                    None
                }
            }
            Place::Back(to, from) => {
                if let Some((node, _, at)) = self.nodes.at(to)
                    && let Some((left, _, exit)) = self.nodes.at(from)
                    && let Some(unit) = self.back_of(to, node, left)
                {
                    Some((unit, Versions { at, exit }))
                } else {
                    None
                }
            }
        }
    }

    /// Whether a unit was never done, or has an input that rose since.
    fn is_due(&self, place: Place, unit: &Unit, now: Versions) -> bool
        ensures { result ≡ due_of (done_at self.now.works.rows unit.now) now }
    {
        match self.works.find(unit, place) {
            Some((_, _, then)) => then.at < now.at || then.exit < now.exit,
            None => true,
        }
    }

    /// The unit of a place, where it can be claimed.
    pub fn claimable_at(&self, place: Place) -> Option<Unit>
        ensures { result ≡ claimable_at self.now.nodes.rows self.now.works.rows self.now.turns.out place }
    {
        let (unit, now) = self.unit_at(place)?;
        if self.turns.is_out(&unit) {
            None
        } else if self.is_due(place, &unit, now) {
            Some(unit)
        } else {
            None
        }
    }
}

impl<A> Parts<A> {
    /// Puts the units that were given back among the candidates.
    pub fn take_returned(&mut self) -> Result<(), Memory>
        ensures shown { StaysShown self.old self.new }
        ensures journal { self.new.turns.journal ≡ self.old.turns.journal }
        ensures none_left { OnOk result (self.new.turns.returned ≡ []) }
    {
        add_all(&mut self.agenda.candidates, self.turns.returned())?;
        self.turns.clear_returned();
        Ok(())
    }

    /// The first unit that can be claimed, with its place. Candidates before it that can't be are forgotten.
    pub fn first(&mut self) -> Option<(Place, Unit)>
        requires { self.old.turns.returned ≡ [] }
        ensures shown { StaysShown self.old self.new }
        ensures turns { self.new.turns ≡ self.old.turns }
        ensures found { (b : BookState A) → Shows b self.old → IsNext b result }
    {
        while let Some(place) = self.agenda.candidates.first().copied() {
            match self.claimable_at(place) {
                Some(unit) => return Some((place, unit)),
                None => {
                    self.agenda.candidates.pop_first();
                }
            }
        }
        None
    }

    /// How many candidates have units that can be claimed, counted up to `most`.
    fn claimable_candidates(&self, most: usize) -> usize
        ensures count { result ≡ min most (count_by (λ place. is_some (found_at self.now place)) self.now.agenda.candidates.keys) }
        ensures once { AreDifferent self.now.agenda.candidates.keys }
    {
        self.agenda
            .candidates
            .iter()
            .filter(|place| self.claimable_at(**place).is_some())
            .take(most)
            .count()
    }

    /// Whether a place that was given back is no candidate, and its unit can be claimed.
    fn is_new_return(&self, place: Place) -> bool
        ensures { result ≡ is_new_return self.now place }
    {
        !self.agenda.candidates.contains(&place) && self.claimable_at(place).is_some()
    }

    /// How many such places there are, counted up to `most`.
    fn new_returns(&self, most: usize) -> usize
        ensures { result ≡ min most (count_by (is_new_return self.now) self.now.turns.returned) }
    {
        self.turns
            .returned()
            .iter()
            .filter(|place| self.is_new_return(**place))
            .take(most)
            .count()
    }

    /// Whether at least so many units can be claimed. It looks at no more candidates than it needs.
    pub fn can_claim(&self, least: u32) -> bool
        ensures enough { (b : BookState A) → Shows b self.now → IsTrue result → HasAtLeast b least }
        ensures few { (b : BookState A) → Shows b self.now → HasAtLeast b least → IsTrue result }
    {
        let least = least as usize;
        let found = self.claimable_candidates(least);
        least <= found + self.new_returns(least - found)
    }

    /// How many places the next claims may look at: those of candidates, and those that were given back.
    pub fn candidates(&self) -> usize
        ensures { (b : BookState A) (least : ℕ) → least < 2 ^ 64 → Shows b self.now → HasAtLeast b least
            → least ≤ result }
    {
        self.agenda
            .candidates
            .len()
            .saturating_add(self.turns.returned().len())
    }

    /// Whether a unit can be claimed.
    pub fn has_claimable(&self) -> bool
        ensures some { (b : BookState A) → Shows b self.now → IsTrue result → HasClaimable b }
        ensures none { (b : BookState A) → Shows b self.now → IsTrue (not result) → NoneClaimable b }
    {
        self.can_claim(1)
    }
}

impl<A> Parts<A> {
    /// Whether no unit is out and none can be claimed.
    pub fn is_finished(&self) -> bool
        ensures { (b : BookState A) → Shows b self.now → IsTrue result ↔ IsFinished b }
    {
        self.turns.is_empty() && !self.has_claimable()
    }
}

impl<A: Drop> Parts<A> {
    /// The nodes with their states, the last works, and the journal.
    pub fn into_vecs(self) -> (Vec<(Node, A)>, Vec<(Unit, Work<A>)>, Vec<Event>)
        ensures nodes { result.0.items ≡ map (λ row. (row.node, row.state)) self.nodes.rows }
        ensures works { result.1.items ≡ map (λ row. (row.unit, row.work)) self.works.rows }
        ensures journal { result.2.items ≡ self.turns.journal }
    {
        let Parts {
            nodes,
            works,
            turns,
            agenda: _,
        } = self;
        (nodes.into_vec(), works.into_vec(), turns.into_journal())
    }
}

impl<A: Drop> Parts<A> {
    /// The nodes with their states, the units that are still units of the book with their last works, and the journal.
    pub fn into_live(self) -> (Vec<(Node, A)>, Vec<(Unit, Work<A>)>, Vec<Event>)
        requires { AllByRecursion (λ row. is_no_unit row.unit ≡ false) self.works.rows }
        ensures nodes { result.0.items ≡ map (λ row. (row.node, row.state)) self.nodes.rows }
        ensures works { result.1.items ≡ filter (λ p. is_live self.works.rows p.0) (map (λ row. (row.unit, row.work)) self.works.rows) }
        ensures journal { result.2.items ≡ self.turns.journal }
    {
        let Parts {
            nodes,
            works,
            turns,
            agenda: _,
        } = self;
        (nodes.into_vec(), works.into_live(), turns.into_journal())
    }
}

impl<A> Parts<A> {
    /// The first unit that can be claimed, with its place.
    pub fn take_first(&mut self) -> Result<Option<(Place, Unit)>, Memory>
        ensures shown { StaysShown self.old self.new }
        ensures journal { self.new.turns.journal ≡ self.old.turns.journal }
        ensures returned { OnOk result (self.new.turns.returned ≡ []) }
        ensures found { IfOk result (λ found. (b : BookState A) → Shows b self.old → IsNext b found) }
    {
        self.take_returned()?;
        Ok(self.first())
    }

    /// Takes out a unit at its place, which is no candidate any more.
    pub fn take_out(&mut self, seat: u32, unit: &Unit, place: Place) -> Result<(), Memory>
        requires home { place_out self.old.turns.out unit.now ≡ None }
        requires returned { self.old.turns.returned ≡ [] }
        ensures journal { OnOk result (self.new.turns.journal ≡ self.old.turns.journal ++ Event.Claim seat unit.now ∷ []) }
        ensures out { OnOk result ((b : BookState A) (o : Out A) → Shows b self.old → IsClaimable b unit.now
            → placed b.nodes unit.now ≡ Some place → o.unit ≡ unit.now
            → Shows (record b { out = b.out ++ o ∷ [] }) self.new) }
        ensures refused { OnErr result (self.new ≡ self.old) }
    {
        self.turns.claim(seat, unit, place)?;
        self.agenda.candidates.remove(&place);
        Ok(())
    }

    /// Takes home a unit without work.
    pub fn give_back(&mut self, seat: u32, unit: &Unit)
        requires { IsSome (place_out self.old.turns.out unit.now) }
        ensures journal { self.new.turns.journal ≡ self.old.turns.journal ++ Event.GiveBack seat unit.now ∷ [] }
        ensures home { (b : BookState A) (o : Out A) → Shows b self.old → out_at b.out unit.now ≡ Some o
            → Shows (record b { out = without b.out unit.now }) self.new }
    {
        self.turns.give_back(seat, unit);
    }
}

impl<A> Parts<A> {
    /// Makes room for raised nodes and a work, and adds what these make claimable. It changes nothing that the parts
    /// stand for.
    pub fn prepare(
        &mut self,
        unit: &Unit,
        place: Place,
        claimed: Versions,
        frames: &[Frame],
        raised: &Raised<A>,
    ) -> Result<(), Memory>
        requires { RisesOver self.old.nodes.rows raised.now }
        ensures shown { StaysShown self.old self.new }
        ensures journal { self.new.turns.journal ≡ self.old.turns.journal }
        ensures prepared { OnOk result (IsPrepared self.old self.new unit.now claimed frames.now (held_rows raised.now.rows.items)) }
    {
        expect_raised(&mut self.agenda, &self.works, raised.rows.as_slice())?;
        expect_unit(&mut self.agenda, &self.nodes, unit, place, claimed, frames)?;
        self.nodes.reserve(raised.rows.len())?;
        self.works.reserve(self.nodes.len())?;
        Ok(())
    }
}

impl<A: Drop> Parts<A> {
    /// Takes in the raised nodes and the work of a unit that is out, for which there is room, and keeps what they replace.
    pub fn post(
        &mut self,
        raised: Raised<A>,
        seat: u32,
        unit: &Unit,
        work: Work<A>,
        versions: Versions,
        spent: &mut Spent<A>,
    )
        requires out { IsSome (place_out self.old.turns.out unit.now) }
        requires placed { ArePlaced self.old.nodes.rows raised.rows.items }
        requires room { length raised.rows.items ≤ self.old.nodes.room }
        requires work_room { 0 < self.old.works.room }
        ensures nodes { self.new.nodes.rows ≡ risen_over self.old.nodes.rows raised }
        ensures works { self.new.works.rows
            ≡ with_done self.old.works.rows (record { unit = unit.now; work = work; versions = versions }) }
        ensures journal { self.new.turns.journal ≡ self.old.turns.journal ++ Event.Post seat unit.now ∷ [] }
        ensures out { TakesHome self.old.turns.out unit.now self.new.turns.out }
        ensures returned { self.new.turns.returned ≡ self.old.turns.returned }
        ensures agenda { self.new.agenda ≡ self.old.agenda }
    {
        let posted = raised.guess;
        self.nodes.set_all(raised, spent);
        let place = self.turns.post(seat, unit);
        let replaced = self.works.set(*unit, work, versions, place, posted);
        spent.keep_work(replaced);
    }
}
