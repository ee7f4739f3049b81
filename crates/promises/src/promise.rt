//! Promises.

ghost use Rattle.std.specs.Prelude.{◌≡◌, ◌≤◌, length};

use arrayvec::ArrayVec;
use call_context::Sequence;
use std::marker::Model;

/// Where a store may write. Both ends of a window belong to it.
#[derive(Clone, Copy, Debug, PartialEq, Eq)]
pub enum Window {
    /// From an address to another one, which isn't below it.
    Between { lo: u16, hi: u16 },
    /// From an address up to the last byte below the stack pointer.
    BelowStack { lo: u16 },
    /// From the first byte above the stack pointer up to an address of RAM, at most 00FFh.
    AboveStack { hi: u16 },
}

impl Default for Window {
    fn default() -> Self {
        Window::Between { lo: 0, hi: 0 }
    }
}

/// The windows of a store, at most 4.
#[derive(Drop)]
pub struct Windows {
    windows: ArrayVec<Window, 4>,
}

impl Model for Windows {
    ghost use Rattle.std.specs.Prelude.{List};
    ghost use Rattle.promises.specs.declared.promise.Window.{Window as AWindow};

    ghost Value = { List AWindow };

    ghost view = { λ w. w.windows.items };
}

impl Windows {
    /// These windows.
    pub fn from_slice(windows: &[Window]) -> Self
        requires { length windows.now ≤ 4 }
        ensures { result ≡ windows.now }
    {
        let mut all = ArrayVec::new();
        for window in windows {
            all.push(*window);
        }
        Windows { windows: all }
    }

    /// The windows in order.
    pub fn as_slice(&self) -> &[Window]
        ensures { result.now ≡ self.now }
    {
        self.windows.as_slice()
    }

    /// The same windows.
    pub fn copy(&self) -> Self
        ensures { result ≡ self.now }
    {
        Windows::from_slice(self.windows.as_slice())
    }
}

/// What is promised of the steps of an instruction.
#[derive(Drop)]
pub enum Promise {
    /// What the instruction stores stands in one of the windows.
    Write { pc: u16, windows: Windows },
    /// The same of each instruction that stores through a register and has no such promise of its own.
    All { windows: Windows },
    /// The instruction goes on at one of the addresses, of which there are at most 256.
    Goes { pc: u16, targets: Sequence<u16> },
}
