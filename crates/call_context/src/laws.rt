//! Laws of the definitions, as functions that do nothing.

ghost use Rattle.std.specs.Prelude.{◌≡◌, ℕ, List};
ghost use Rattle.std.specs.Bool.{Decides};
ghost use Rattle.call_context.specs.declared.node.Frame.{Frame as AFrame};
ghost use Rattle.call_context.specs.declared.node.Node.{Node as ANode};
ghost use Rattle.call_context.specs.declared.node.Unit.{Unit as AUnit};
ghost use Rattle.call_context.specs.declared.shown.Item.{Item as AnItem};
ghost use Rattle.call_context.specs.declared.shown.Set.{Set as ASet};

use crate::node::{Frame, Node, Unit};
use crate::shown::{InstrBytes, Item, Set};

/// The tests of frames, nodes and units hold exactly where the two are one.
pub fn equal_nodes_are_one()
    ensures frames { (a b : AFrame) → Decides (⟦<Frame as PartialEq>⟧.eq a b) (a ≡ b) }
    ensures nodes { (a b : ANode) → Decides (⟦<Node as PartialEq>⟧.eq a b) (a ≡ b) }
    ensures units { (a b : AUnit) → Decides (⟦<Unit as PartialEq>⟧.eq a b) (a ≡ b) }
{}

/// The tests of instruction bytes, sets and items hold exactly where the two are one.
pub fn equal_items_are_one()
    ensures bytes { (a b : List ℕ) → Decides (⟦<InstrBytes as PartialEq>⟧.eq a b) (a ≡ b) }
    ensures sets { (a b : ASet) → Decides (⟦<Set as PartialEq>⟧.eq a b) (a ≡ b) }
    ensures items { (a b : AnItem) → Decides (⟦<Item as PartialEq>⟧.eq a b) (a ≡ b) }
{}
