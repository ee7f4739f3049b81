//! Returns that are no units of a book any more are left out of its works, without memory.

ghost use Rattle.std.specs.Prelude.{◌≡◌, ◌<◌, ◌+◌, List, false, map, length};
ghost use Rattle.std.specs.List.{AllByRecursion, list_any};
ghost use Rattle.std.specs.Map.{keys_of, values_of};
ghost use Rattle.call_context.specs.declared.node.Unit.{Unit as WorkUnit};
ghost use Rattle.chip_analysis.specs.declared.chip.Work.{Work as AWork};
ghost use Rattle.book_rules.specs.declared.versions.Versions.{Versions as SomeVersions};
ghost use Rattle.round_core.specs.Former.{is_no_unit, marked, live_among};
ghost use Rattle.book_rules.specs.Kept.{is_live};
ghost use Rattle.book_rules.specs.Machine.{waits_for};
ghost use Rattle.round_core.specs.Rows.{mark_part, value_part};
ghost use Rattle.book_rules.specs.Same.{same_frame};
ghost use Rattle.round_core.specs.Works.{done_of, work_of};

use book_rules::Versions;
use call_context::{Frame, Node, Unit, equal_nodes_are_one};
use chip_analysis::Work;
use indexmap::IndexMap;

/// Whether a work waits for a frame.
pub fn waits<A>(work: &Work<A>, frame: &Frame) -> bool
    ensures { result ≡ list_any (same_frame frame.now) work.now.waits }
{
    work.waits.as_slice().contains(frame)
}

/// Whether the last work of a location waits for a frame, where the works stand at the places of their units.
fn waits_in<A>(
    places: &IndexMap<Unit, Versions>,
    works: &[(Unit, Work<A>)],
    node: &Node,
    frame: &Frame,
) -> bool
    ensures { (rows : List (WorkUnit × (AWork A × SomeVersions)))
        → places.now.entries ≡ map mark_part rows → values_of works.now ≡ map work_of rows
        → result ≡ waits_for (map done_of rows) node.now frame.now }
{
    equal_nodes_are_one();
    let Some(place) = places.get_index_of(&Unit::One(*node)) else {
        return false;
    };
    match works.get(place) {
        Some((_, work)) => waits(work, frame),
        None => false,
    }
}

/// Whether a unit that was done is still one of the book, where the works stand at the places of their units.
fn is_live_in<A>(places: &IndexMap<Unit, Versions>, works: &[(Unit, Work<A>)], unit: &Unit) -> bool
    ensures { (rows : List (WorkUnit × (AWork A × SomeVersions)))
        → places.now.entries ≡ map mark_part rows → values_of works.now ≡ map work_of rows
        → result ≡ is_live (map done_of rows) unit.now }
{
    match unit {
        Unit::One(_) => true,
        Unit::Back(node, Node::At(_, _, frame) | Node::Exit(_, frame)) => {
            waits_in(places, works, node, frame)
        }
    }
}

/// Whether nothing is left of a unit.
fn is_no_unit(unit: &Unit) -> bool
    ensures { result ≡ is_no_unit unit.now }
{
    match unit {
        Unit::One(Node::Exit(..)) => true,
        Unit::One(Node::At(..)) | Unit::Back(..) => false,
    }
}

/// Takes the unit from the pair at a place, if it is none of the book any more.
fn mark<A>(places: &IndexMap<Unit, Versions>, works: &mut Vec<(Unit, Work<A>)>, place: usize)
    requires { place < length works.old.items }
    ensures len { length works.new.items ≡ length works.old.items }
    ensures marked { (rows : List (WorkUnit × (AWork A × SomeVersions)))
        → places.now.entries ≡ map mark_part rows
        → works.old.items ≡ marked (is_live (map done_of rows)) place (map value_part rows)
        → works.new.items ≡ marked (is_live (map done_of rows)) (place + 1) (map value_part rows) }
{
    let unit = works[place].0;
    if !is_live_in(places, works.as_slice(), &unit) {
        works[place].0 = Unit::One(Node::Exit(0, Frame::Base));
    }
}

/// The pairs whose units are live.
pub fn live_works<A: Drop>(
    places: &IndexMap<Unit, Versions>,
    mut works: Vec<(Unit, Work<A>)>,
) -> Vec<(Unit, Work<A>)>
    ensures { (rows : List (WorkUnit × (AWork A × SomeVersions)))
        → places.now.entries ≡ map mark_part rows → works.items ≡ map value_part rows
        → AllByRecursion (λ unit. is_no_unit unit ≡ false) (keys_of rows)
        → result.items ≡ live_among (is_live (map done_of rows)) (map value_part rows) }
{
    for place in 0..works.len() {
        mark(places, &mut works, place);
    }
    works.retain(|pair| !is_no_unit(&pair.0));
    works
}
