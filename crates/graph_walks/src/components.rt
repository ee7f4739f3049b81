//! Components: vertices that lead to one another by edges to no stops.

ghost use Rattle.std.specs.Prelude.{◌≡◌, ℕ, ◌-◌, ◌<◌, ◌≤◌, All, IfOk, OnOk, Some, length, slice_get};
ghost use Rattle.graph_walks.specs.Components.{AreAllComponents};
ghost use Rattle.graph_walks.specs.Graphs.{IsGraph};
ghost use Rattle.graph_walks.specs.Searches.{IsAscending, IsAssigned, IsCleared, IsExplored, IsFinished, IsHolding, IsLooked, IsLooking, IsMark, IsMerged, IsSearch, IsStep, IsToLook};

use no_memory::Memory;
use std::alloc::Global;

/// What is known of a vertex.
#[derive(Clone, Copy)]
pub(crate) enum Mark {
    Unseen,
    /// Held, at this place.
    Held(usize),
    /// In the component that begins at this place of the order.
    Done(usize),
}

/// A vertex that is held. The edges in front of the next one were looked along.
#[derive(Clone, Copy)]
struct Visit {
    vertex: usize,
    next: usize,
}

/// A search in depth. The bounds cut the vertices that are held into parts that lie one behind the other: vertices of one part
/// lead to one another, and each part leads to the next. Those are pending that may have edges left.
#[derive(Drop)]
struct Search {
    marks: Vec<Mark>,
    held: Vec<Visit>,
    bounds: Vec<usize>,
    pending: Vec<usize>,
    order: Vec<usize>,
}

/// All vertices, component by component, and the component of each. An edge leads to the same component or to an earlier one,
/// unless it leads to a stop.
#[derive(Drop)]
pub(crate) struct Components {
    pub(crate) marks: Vec<Mark>,
    pub(crate) order: Vec<usize>,
}

/// Takes the bounds beyond a place away.
fn merge(bounds: &mut Vec<usize>, place: usize)
    requires { IsAscending bounds.old.items }
    ensures { IsMerged place bounds.old.items bounds.new.items }
{
    while let Some(bound) = bounds.last() {
        if *bound <= place {
            break;
        }
        bounds.pop();
    }
}

/// Ends a component.
fn assign(
    visits: &[Visit],
    component: usize,
    marks: &mut [Mark],
    order: &mut Vec<usize>,
) -> Result<(), Memory>
    requires { All (λ visit. visit.vertex < length marks.old) visits.now }
    ensures { OnOk result (IsAssigned visits.now component marks.old marks.new order.old.items order.new.items) }
{
    for visit in visits {
        marks[visit.vertex] = Mark::Done(component);
        order.push(visit.vertex)?;
    }
    Ok(())
}

impl Search {
    /// Nothing is seen.
    fn begin(alloc: Global, count: usize) -> Result<Search, Memory>
        ensures { IfOk result (IsCleared count) }
    {
        Ok(Search {
            marks: vec![in alloc; Mark::Unseen; count]?,
            held: Vec::new(alloc),
            bounds: Vec::new(alloc),
            pending: Vec::new(alloc),
            order: Vec::new(alloc),
        })
    }

    /// Holds a vertex, as a part of its own.
    fn hold(&mut self, vertex: usize) -> Result<(), Memory>
        requires { vertex < length self.old.marks.items }
        ensures { OnOk result (IsHolding vertex self.old self.new) }
    {
        let place = self.held.len();
        self.held.push(Visit { vertex, next: 0 })?;
        self.bounds.push(place)?;
        self.pending.push(place)?;
        self.marks[vertex] = Mark::Held(place);
        Ok(())
    }

    /// Looks along the edges of a held vertex that are left, up to one to a vertex that wasn't seen. An edge to a part in front
    /// makes one part of all from there on.
    fn look(&mut self, graph: &[Vec<usize>], stop: &[bool], place: usize) -> Option<usize>
        requires graph { IsGraph graph.now }
        requires stop { length stop.now ≡ length graph.now }
        requires search { IsLooking graph.now stop.now place self.old }
        ensures { IsLooked graph.now stop.now place self.old self.new result }
    {
        let visit = self.held[place];
        let row = graph[visit.vertex].as_slice();
        for next in visit.next..row.len() {
            let vertex = row[next];
            if !stop[vertex] {
                match self.marks[vertex] {
                    Mark::Unseen => return Some(vertex),
                    Mark::Held(before) => merge(&mut self.bounds, before),
                    Mark::Done(_) => {}
                }
            }
            self.held[place] = Visit {
                vertex: visit.vertex,
                next: next + 1,
            };
        }
        None
    }

    /// Ends the last part, as a component.
    fn finish(&mut self, start: usize) -> Result<(), Memory>
        requires start { start ≤ length self.old.held.items }
        requires held { All (λ visit. visit.vertex < length self.old.marks.items) self.old.held.items }
        ensures { OnOk result (IsFinished start self.old self.new) }
    {
        let component = self.order.len();
        assign(
            &self.held[start..],
            component,
            &mut self.marks,
            &mut self.order,
        )?;
        self.held.truncate(start);
        self.bounds.pop();
        Ok(())
    }

    /// The last place that is pending, where it is in the last part.
    fn to_look(&self, start: usize) -> Option<usize>
        requires { IsAscending self.now.pending.items }
        ensures { IsToLook start self.now.pending.items result }
    {
        let place = *self.pending.last()?;
        if start <= place { Some(place) } else { None }
    }

    /// Holds a vertex that the last part leads to, or ends a place or the part.
    fn step(&mut self, graph: &[Vec<usize>], stop: &[bool], start: usize) -> Result<(), Memory>
        requires graph { IsGraph graph.now }
        requires stop { length stop.now ≡ length graph.now }
        requires search { IsSearch graph.now stop.now self.old }
        requires start { slice_get self.old.bounds.items (length self.old.bounds.items - 1) ≡ Some start }
        ensures { OnOk result (IsStep graph.now stop.now self.old self.new) }
    {
        let Some(place) = self.to_look(start) else {
            return self.finish(start);
        };
        if let Some(vertex) = self.look(graph, stop, place) {
            return self.hold(vertex);
        }
        self.pending.pop();
        Ok(())
    }

    /// Puts a vertex and all that it leads to into components.
    fn explore(&mut self, graph: &[Vec<usize>], stop: &[bool], vertex: usize) -> Result<(), Memory>
        requires graph { IsGraph graph.now }
        requires stop { length stop.now ≡ length graph.now }
        requires search { IsSearch graph.now stop.now self.old }
        requires ended { length self.old.held.items ≡ 0 }
        requires unseen { IsMark self.old Mark.Unseen vertex }
        ensures { OnOk result (IsExplored graph.now stop.now vertex self.old self.new) }
    {
        self.hold(vertex)?;
        while let Some(start) = self.bounds.last() {
            let start = *start;
            self.step(graph, stop, start)?;
        }
        Ok(())
    }
}

/// The components of all vertices.
pub(crate) fn components_of(
    alloc: Global,
    graph: &[Vec<usize>],
    stop: &[bool],
) -> Result<Components, Memory>
    requires graph { IsGraph graph.now }
    requires stop { length stop.now ≡ length graph.now }
    ensures { IfOk result (AreAllComponents graph.now stop.now) }
{
    let mut search = Search::begin(alloc, graph.len())?;
    for vertex in 0..graph.len() {
        if let Mark::Unseen = search.marks[vertex] {
            search.explore(graph, stop, vertex)?;
        }
    }
    Ok(Components {
        marks: search.marks,
        order: search.order,
    })
}
