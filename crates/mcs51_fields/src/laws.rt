//! What holds of the texts of all states.

ghost use Rattle.std.specs.Prelude.{◌≡◌, ◌↔◌, true, None, Some, ℕ, List};
ghost use Rattle.call_context.specs.declared.node.Node.{Node as ANode};
ghost use Rattle.node_fields.specs.Nodes.{IsNodeText};
ghost use Rattle.text_fields.specs.Lines.{IsOneLine};
ghost use Rattle.mcs51_state.specs.Forms.{HasChipForm};
ghost use Rattle.mcs51_state.specs.Known.{Known, known_within};
ghost use Rattle.mcs51_fields.specs.Outside.{outside_of};
ghost use Rattle.mcs51_fields.specs.States.{known_text, state_in};

/// Each state in form is read again from its text, which is in one line, and nothing else is read. The nodes in form have a
/// text. No field of a state is outside exactly where it is within.
pub fn states_have_texts()
    ensures again { (node : ANode) (a : Known) → HasChipForm node a → state_in node (known_text a) ≡ Some a }
    ensures takes { (node : ANode) (text : List ℕ) (a : Known) → state_in node text ≡ Some a
        → HasChipForm node a × (known_text a ≡ text) }
    ensures one_line { (node : ANode) (a : Known) → HasChipForm node a → IsOneLine (known_text a) }
    ensures nodes { (node : ANode) (a : Known) → HasChipForm node a → IsNodeText 2 node }
    ensures included { (new held : Known) → (outside_of new held ≡ None) ↔ (known_within new held ≡ true) }
{}
