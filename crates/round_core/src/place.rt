//! Units by the places of their nodes.

/// A unit by the places of its nodes in the order of their first post. Places are ordered as units are
/// claimed: units of one node by its place, and then returns by the places of node and exit.
#[derive(Clone, Copy, Debug, PartialEq, Eq, PartialOrd, Ord)]
pub enum Place {
    /// The work of the node at a place.
    One(usize),
    /// The return to the node at a place from the exit at a place.
    Back(usize, usize),
}

impl Place {
    /// The places of the unit's node and of its exit, or for one that has none its node's twice.
    pub fn of_nodes(self) -> (usize, usize) {
        match self {
            Place::One(node) => (node, node),
            Place::Back(node, exit) => (node, exit),
        }
    }
}
