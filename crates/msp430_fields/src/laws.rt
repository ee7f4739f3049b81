//! What holds of the texts of all states.

ghost use Rattle.std.specs.Prelude.{◌≡◌, ◌↔◌, ◌<◌, ℕ, Bool, true, None, Some, List};
ghost use Rattle.call_context.specs.declared.node.Node.{Node as ANode};
ghost use Rattle.node_fields.specs.Nodes.{IsNodeText};
ghost use Rattle.text_fields.specs.Lines.{IsOneLine};
ghost use Rattle.msp430_state.specs.Forms.{HasChipForm, IsKnown};
ghost use Rattle.msp430_state.specs.Known.{Known, known_within};
ghost use Rattle.msp430_fields.specs.Outside.{outside_of};
ghost use Rattle.msp430_fields.specs.States.{known_text, state_in};

/// Each state in form is read again from its text, which is in one line, and nothing else is read. The nodes in form have a
/// text. No field of a state is outside exactly where it is within.
pub fn states_have_texts()
    ensures again { (lo hi : ℕ) (node : ANode) (a : Known) → hi < 65536 → HasChipForm lo hi node a
        → state_in lo hi node (known_text a) ≡ Some a }
    ensures takes { (lo hi : ℕ) (node : ANode) (text : List ℕ) (a : Known) → hi < 65536 → state_in lo hi node text ≡ Some a
        → HasChipForm lo hi node a × (known_text a ≡ text) }
    ensures one_line { (lo hi : ℕ) (node : ANode) (a : Known) → hi < 65536 → HasChipForm lo hi node a
        → IsOneLine (known_text a) }
    ensures nodes { (lo hi : ℕ) (node : ANode) (a : Known) → HasChipForm lo hi node a → IsNodeText 4 node }
    ensures included { (lo hi : ℕ) (framed : Bool) (new held : Known) → IsKnown lo hi framed new → IsKnown lo hi framed held
        → (outside_of new held ≡ None) ↔ (known_within new held ≡ true) }
{}
