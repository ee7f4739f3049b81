//! Locations of a program with their contexts, and the units of work over them.

use value_set::Few;

/// A call string: the sites of the calls that led here, oldest first, at most 8 of them.
pub type Calls = Few<8>;

/// What a location runs in: no interrupt, or one that was entered.
#[derive(Clone, Copy, Debug, PartialEq, Eq, Hash)]
pub enum Frame {
    /// No interrupt was entered, or each was left.
    Base,
    /// The handler of a vector, entered at a stack pointer where it is one value.
    Irq {
        vector: u8,
        sp: Option<u16>,
        level: u8,
    },
}

/// A node of the control-flow graph.
#[derive(Clone, Copy, Debug, PartialEq, Eq, Hash)]
pub enum Node {
    /// A location under its call string and frame.
    At(u16, Calls, Frame),
    /// What a return from interrupt at a location leaves, in the frame that it leaves.
    Exit(u16, Frame),
}

/// A unit of work.
#[derive(Clone, Copy, Debug, PartialEq, Eq, Hash)]
pub enum Unit {
    /// The work of a location.
    One(Node),
    /// The return of an interrupt, from an exit to the location that it interrupted.
    Back(Node, Node),
}
