//! Parts that begin with nodes and works that are known.

ghost use Rattle.std.specs.Prelude.{◌≡◌, [], IfOk, OnOk, map};
ghost use Rattle.std.specs.List.{AllByRecursion};
ghost use Rattle.book_rules.specs.Machine.{with_done, with_held};
ghost use Rattle.book_rules.specs.Sound.{AreDoneOnce, IsThere};
ghost use Rattle.round_core.specs.Raise.{place_for};
ghost use Rattle.round_core.specs.Renewal.{begun, first_done, first_rise, first_versions, state_of, with_rows, with_works, IsBeginning};
ghost use Rattle.round_core.specs.Shown.{AreDistinct, Shows};

use crate::agenda::Agenda;
use crate::expect::{expect_node, expect_unit};
use crate::nodes::Nodes;
use crate::parts::Parts;
use crate::place::Place;
use crate::turns::Turns;
use crate::works::Works;
use book_rules::Versions;
use call_context::{Node, Unit};
use chip_analysis::Work;
use no_memory::Memory;
use std::alloc::Global;

/// The place of a node, or the one behind all, which a new node gets.
fn place_for<A>(nodes: &Nodes<A>, node: &Node) -> usize
    ensures { result ≡ place_for nodes.now.rows node.now }
{
    match nodes.find_near(node, nodes.len()) {
        Some((place, _, _)) => place,
        None => nodes.len(),
    }
}

/// The versions of a unit's inputs, each of which rose once.
fn first_versions(unit: &Unit) -> Versions
    ensures { result ≡ first_versions unit.now }
{
    match unit {
        Unit::One(_) => Versions { at: 1, exit: 0 },
        Unit::Back(..) => Versions { at: 1, exit: 1 },
    }
}

impl<A: Drop> Parts<A> {
    /// No nodes, and nothing else.
    fn empty(alloc: Global) -> Self
        ensures nodes { result.nodes.rows ≡ [] }
        ensures works { result.works.rows ≡ [] }
        ensures begins { IsBeginning result }
    {
        Parts {
            nodes: Nodes::new(alloc),
            works: Works::new(alloc),
            turns: Turns::new(alloc),
            agenda: Agenda::new(alloc),
        }
    }

    /// Takes in a node that rose once.
    fn begin_node(&mut self, node: Node, state: A) -> Result<(), Memory>
        requires begins { IsBeginning self.old }
        requires before { self.old.works.rows ≡ [] }
        ensures nodes { OnOk result (self.new.nodes.rows ≡ with_held self.old.nodes.rows (first_rise (node, state))) }
        ensures works { OnOk result (self.new.works.rows ≡ []) }
        ensures begins { OnOk result (IsBeginning self.new) }
    {
        let place = place_for(&self.nodes, &node);
        expect_node(&mut self.agenda, &self.works, &node, place)?;
        self.nodes.reserve(1)?;
        self.nodes.set_at(place, node, state, 1);
        Ok(())
    }

    /// Takes in a unit that was done over nodes that rose once. Its location is there.
    fn begin_unit(&mut self, unit: Unit, work: Work<A>) -> Result<(), Memory>
        requires begins { IsBeginning self.old }
        requires there { IsThere self.old.nodes.rows unit }
        ensures nodes { OnOk result (self.new.nodes.rows ≡ self.old.nodes.rows) }
        ensures works { OnOk result (self.new.works.rows ≡ with_done self.old.works.rows (first_done (unit, work))) }
        ensures begins { OnOk result (IsBeginning self.new) }
    {
        let versions = first_versions(&unit);
        let behind = self.nodes.len();
        let place = Place::Back(behind, behind);
        let frames = work.waits.as_slice();
        expect_unit(
            &mut self.agenda,
            &self.nodes,
            &unit,
            place,
            versions,
            frames,
        )?;
        self.works.reserve(behind)?;
        self.works.set(unit, work, versions, place, behind);
        Ok(())
    }

    /// Takes in nodes that rose once.
    fn begin_nodes(&mut self, rows: Vec<(Node, A)>) -> Result<(), Memory>
        requires begins { IsBeginning self.old }
        requires before { self.old.works.rows ≡ [] }
        ensures nodes { OnOk result (self.new.nodes.rows ≡ with_rows self.old.nodes.rows rows.items) }
        ensures works { OnOk result (self.new.works.rows ≡ []) }
        ensures begins { OnOk result (IsBeginning self.new) }
    {
        for row in rows {
            let (node, state) = row;
            self.begin_node(node, state)?;
        }
        Ok(())
    }

    /// Takes in units that were done over them.
    fn begin_units(&mut self, done: Vec<(Unit, Work<A>)>) -> Result<(), Memory>
        requires begins { IsBeginning self.old }
        requires there { AllByRecursion (λ pair. IsThere self.old.nodes.rows pair.0) done.items }
        ensures nodes { OnOk result (self.new.nodes.rows ≡ self.old.nodes.rows) }
        ensures works { OnOk result (self.new.works.rows ≡ with_works self.old.works.rows done.items) }
        ensures begins { OnOk result (IsBeginning self.new) }
    {
        for pair in done {
            let (unit, work) = pair;
            self.begin_unit(unit, work)?;
        }
        Ok(())
    }

    /// These nodes, each of which rose once, and these works over them.
    pub fn begin(
        alloc: Global,
        rows: Vec<(Node, A)>,
        done: Vec<(Unit, Work<A>)>,
    ) -> Result<Self, Memory>
        requires distinct { AreDistinct (map first_rise rows.items) }
        requires once { AreDoneOnce (map first_done done.items) }
        requires there { AllByRecursion (λ pair. IsThere (map first_rise rows.items) pair.0) done.items }
        ensures state { IfOk result (λ parts. state_of parts ≡ begun rows.items done.items) }
        ensures shows { IfOk result (λ parts. Shows (state_of parts) parts) }
    {
        let mut parts = Parts::empty(alloc);
        parts.begin_nodes(rows)?;
        parts.begin_units(done)?;
        Ok(parts)
    }
}
