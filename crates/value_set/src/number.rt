//! Numbers of 8 and of 16 bits.

ghost use Rattle.std.specs.Prelude.{◌≡◌, ℕ};

/// A number of either width.
pub trait Number: Copy {
    ghost number: { Self → ℕ };

    /// The number in 16 bits.
    fn number(self) -> u16
        ensures { result ≡ number self };
}

impl Number for u8 {
    ghost number = { λ n. n };

    fn number(self) -> u16 {
        self as u16
    }
}

impl Number for u16 {
    ghost number = { λ n. n };

    fn number(self) -> u16 {
        self
    }
}
