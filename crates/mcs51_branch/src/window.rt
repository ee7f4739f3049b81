//! Windows.

ghost use Rattle.std.specs.Prelude.{◌≡◌, ◌<◌};
ghost use Rattle.mcs51_branch.specs.Cuts as cuts;

/// So many bytes from one on, round the circle of all 256.
#[derive(Clone, Copy, Debug, PartialEq, Eq)]
pub struct Window {
    pub low: u8,
    pub len: u32,
}

/// A number alone, or all the others.
pub(crate) fn equality_window(equal: bool, number: u8) -> Window
    ensures value { result ≡ cuts.equality_window equal number }
{
    if equal {
        return Window {
            low: number,
            len: 1,
        };
    }
    Window {
        low: number.wrapping_add(1),
        len: 255,
    }
}

/// The numbers below a bound, or the others.
pub(crate) fn order_window(less: bool, bound: u8) -> Window
    ensures value { result ≡ cuts.order_window less bound }
{
    if less {
        return Window {
            low: 0,
            len: bound as u32,
        };
    }
    Window {
        low: bound,
        len: 256 - bound as u32,
    }
}
