//! What a value under the lock tells of itself.
ghost use Rattle.std.specs.Prelude.{ℕ, List};

/// A value with a history of events, each of one seat, and a base that no turn changes. It has meanings and no
/// functions: the lock never looks at the value.
pub trait Journaled {
    /// One entry of the history.
    type Event;

    /// What the rule compares, and no turn changes.
    type Base;

    /// The events that made the value what it is, in order.
    ghost history: { Self → List Self.Event };

    ghost base: { Self → Self.Base };

    /// The number of the seat whose event it is.
    ghost seat_of: { Self.Event → ℕ };
}
