//! Which small chips there are.

/// What leads where.
#[derive(Clone, Copy)]
pub enum Shape {
    /// The only location counts: it posts its number plus one to itself.
    Counting,
    /// The only location posts 1 to itself: to 0 first, and then nothing new.
    Loop,
    /// Location 0 leads to 1 and 2, which count beside each other.
    Pair,
    /// The only location counts, and no number is within another: whatever is posted raises its node.
    Restless,
    /// Locations from 0 to the last, each of which leads to the next.
    Chain(u16),
    /// Locations from 0 to an even last one, each of which leads to two more.
    Tree(u16),
    /// Location 0 enters a handler, which leaves its frame, and the return goes on at location 4.
    Interrupted,
    /// Locations 1 and 2 post to 3, the first one a greater number, and 3 posts a small number back to both.
    Racing,
}
