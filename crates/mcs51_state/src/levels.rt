//! Which interrupt levels may be in service.

ghost use Rattle.std.specs.Prelude.{◌≡◌};
ghost use Rattle.mcs51_state.specs.Levels as the_levels;

/// What may be in service. Where more than one of these may be, it isn't known which of them is.
#[derive(Clone, Copy, Debug, PartialEq, Eq)]
pub struct Levels {
    /// No level.
    pub none: bool,
    /// The low level alone.
    pub low: bool,
    /// The high level alone.
    pub high: bool,
    /// The high level, which interrupted the low one.
    pub both: bool,
}

impl Levels {
    /// No level is in service.
    pub(crate) fn only_none() -> Levels
        ensures { result ≡ the_levels.only_none }
    {
        Levels {
            none: true,
            low: false,
            high: false,
            both: false,
        }
    }

    /// Nothing is known.
    pub(crate) fn all() -> Levels
        ensures { result ≡ the_levels.all_levels }
    {
        Levels {
            none: true,
            low: true,
            high: true,
            both: true,
        }
    }

    /// What may be in either.
    pub fn joined(&self, new: &Levels) -> Levels
        ensures { result ≡ the_levels.levels_joined self.now new.now }
    {
        Levels {
            none: self.none || new.none,
            low: self.low || new.low,
            high: self.high || new.high,
            both: self.both || new.both,
        }
    }

    /// Whether all that may be here may be in the other one.
    pub fn within(&self, held: &Levels) -> bool
        ensures { result ≡ the_levels.levels_within self.now held.now }
    {
        (!self.none || held.none)
            && (!self.low || held.low)
            && (!self.high || held.high)
            && (!self.both || held.both)
    }
}
