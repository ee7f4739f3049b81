//! The law of the tests that tell frames, nodes and units apart, as a function that does nothing.

ghost use Rattle.std.specs.Prelude.{◌≡◌, ◌↔◌, true};
ghost use Rattle.call_context.specs.declared.node.Frame.{Frame as AFrame};
ghost use Rattle.call_context.specs.declared.node.Node.{Node as ANode};
ghost use Rattle.call_context.specs.declared.node.Unit.{Unit as WorkUnit};
ghost use Rattle.book_rules.specs.Same.{same_frame, same_node, same_unit};

/// The tests hold of a frame, a node or a unit and itself alone.
pub fn tests_tell_which_are_one()
    ensures frames { (a b : AFrame) → (same_frame a b ≡ true) ↔ (a ≡ b) }
    ensures nodes { (a b : ANode) → (same_node a b ≡ true) ↔ (a ≡ b) }
    ensures units { (a b : WorkUnit) → (same_unit a b ≡ true) ↔ (a ≡ b) }
{}
