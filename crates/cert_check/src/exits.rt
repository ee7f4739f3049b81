//! The exits of a table, for looking up those of some frames.

ghost use Rattle.std.specs.Prelude.{◌≡◌, ◌∷◌, [], map, IfOk, IfSome, IfNone};
ghost use Rattle.call_context.specs.Nodes as nodes;
ghost use Rattle.cert_check.specs.Exits.{cursors_at, due_rows, least_place, moved};
ghost use Rattle.cert_check.specs.Refusal as refusals;

use book_rules::tests_tell_which_are_one;
use call_context::{Frame, Node, equal_nodes_are_one};
use indexmap::IndexMap;
use no_memory::Memory;
use std::alloc::Global;
use std::marker::Model;

/// The rows from the first exit on.
pub fn exits_in<A>(rows: &[(Node, A)]) -> &[(Node, A)]
    ensures { result.now ≡ refusals.exits_in rows.now }
{
    let mut rest = rows;
    while let [(Node::At(_, _, _), _), behind @ ..] = rest {
        rest = behind;
    }
    rest
}

/// Exits, each with the place of the next one of its frame. Contracts see the exits.
#[derive(Drop)]
pub struct Exits<'a, A> {
    rows: &'a [(Node, A)],
    firsts: IndexMap<Frame, usize>,
    nexts: Vec<usize>,
}

impl<'a, A> Model for Exits<'a, A> {
    ghost use Rattle.std.specs.Prelude.{◌≡◌, List, length};
    ghost use Rattle.call_context.specs.declared.node.Node.{Node as ANode};
    ghost use Rattle.cert_check.specs.Exits.{AreFirsts, nexts_of};

    ghost Value = { List (ANode × A) };

    ghost view = { λ e. e.rows.now };

    ghost invariant = { λ e. AreFirsts (⟦<Frame as PartialEq>⟧.eq) e.firsts.entries (length e.rows.now) 0 e.rows.now
        × (e.nexts.items ≡ nexts_of 0 e.rows.now) };
}

/// A frame, and the place of its first exit that wasn't taken yet, or that behind the exits.
#[derive(Clone, Copy, Drop)]
struct Cursor {
    frame: Frame,
    place: usize,
}

/// The exits of some frames in the order of the table. Contracts see those that are left.
#[derive(Drop)]
pub struct Due<'a, A> {
    rows: &'a [(Node, A)],
    nexts: &'a [usize],
    cursors: Vec<Cursor>,
    place: usize,
}

impl<'a, A> Model for Due<'a, A> {
    ghost use Rattle.std.specs.Prelude.{◌≡◌, List, drop};
    ghost use Rattle.call_context.specs.declared.node.Node.{Node as ANode};
    ghost use Rattle.cert_check.specs.Exits.{AreNext, due_rows, frames_of, nexts_of};

    ghost Value = { List (ANode × A) };

    ghost view = { λ d. due_rows (frames_of d.cursors.items) (drop d.place d.rows.now) };

    ghost invariant = { λ d. AreNext d.rows.now d.cursors.items d.place × (d.nexts.now ≡ nexts_of 0 d.rows.now) };
}

/// The least of a place and those of some cursors.
fn least_of(end: usize, cursors: &[Cursor]) -> usize
    ensures { result ≡ least_place end cursors.now }
{
    let mut least = end;
    for cursor in cursors {
        least = least.min(cursor.place);
    }
    least
}

impl Cursor {
    /// Goes on, where it stands at an exit of this frame.
    fn move_on(&mut self, frame: &Frame, next: usize)
        ensures { self.new ≡ moved frame.now next self.old }
    {
        equal_nodes_are_one();
        tests_tell_which_are_one();
        if *frame == self.frame {
            self.place = next;
        }
    }
}

/// Moves the cursors of a frame to its next exit.
fn move_on(cursors: &mut [Cursor], frame: &Frame, next: usize)
    ensures { cursors.new ≡ map (moved frame.now next) cursors.old }
{
    for cursor in cursors.iter_mut() {
        cursor.move_on(frame, next);
    }
}

/// The frame of a node.
fn frame_of(node: &Node) -> &Frame
    ensures { result.now ≡ nodes.frame_of node.now }
{
    match node {
        Node::At(_, _, frame) | Node::Exit(_, frame) => frame,
    }
}

impl<'a, A> Exits<'a, A> {
    /// Finds for each exit the next one of its frame.
    pub fn new(alloc: Global, rows: &'a [(Node, A)]) -> Result<Self, Memory>
        ensures { IfOk result (λ exits. exits ≡ rows.now) }
    {
        equal_nodes_are_one();
        tests_tell_which_are_one();
        let mut firsts = IndexMap::new(alloc);
        let mut nexts = vec![in alloc; rows.len(); rows.len()]?;
        for place in (0..rows.len()).rev() {
            let frame = *frame_of(&rows[place].0);
            nexts[place] = firsts.insert(frame, place)?.unwrap_or(rows.len());
        }
        Ok(Exits {
            rows,
            firsts,
            nexts,
        })
    }

    /// A cursor at the first exit of each frame.
    fn cursors(&self, alloc: Global, frames: &[Frame]) -> Result<Vec<Cursor>, Memory>
        ensures { IfOk result (λ cursors. cursors.items ≡ cursors_at 0 self.now frames.now) }
    {
        let mut cursors = Vec::new(alloc);
        for frame in frames {
            let place = *self.firsts.get(frame).unwrap_or(&self.rows.len());
            cursors.push(Cursor {
                frame: *frame,
                place,
            })?;
        }
        Ok(cursors)
    }

    /// The exits of some frames.
    pub fn of_frames(&'a self, alloc: Global, frames: &[Frame]) -> Result<Due<'a, A>, Memory>
        ensures { IfOk result (λ due. due ≡ due_rows frames.now self.now) }
    {
        let cursors = self.cursors(alloc, frames)?;
        let place = least_of(self.rows.len(), &cursors);
        Ok(Due {
            rows: self.rows,
            nexts: &self.nexts,
            cursors,
            place,
        })
    }
}

impl<'a, A> Due<'a, A> {
    /// Takes the next exit.
    pub fn next(&mut self) -> Option<&'a (Node, A)>
        ensures taken { IfSome result (λ row. self.old ≡ row.now ∷ self.new) }
        ensures none { IfNone result (self.old ≡ []) }
    {
        tests_tell_which_are_one();
        let row = self.rows.get(self.place)?;
        let next = self.nexts[self.place];
        move_on(&mut self.cursors, frame_of(&row.0), next);
        self.place = least_of(self.rows.len(), &self.cursors);
        Some(row)
    }
}
