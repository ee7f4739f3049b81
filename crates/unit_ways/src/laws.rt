//! Which ways there are, and that they ascend.

ghost use Rattle.unit_ways.specs.Laws.{WayLaws};

/// The edges and posts of ways, the ways to the members of a set and the two of a jump are these, and they ascend.
pub fn ways_hold<A>()
    ensures { WayLaws A }
{}
