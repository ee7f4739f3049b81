//! The form of states.

ghost use Rattle.std.specs.Prelude.{◌≡◌, ◌<◌, All};
ghost use Rattle.mcs51_chip.specs.State.{IsChipState};
ghost use Rattle.mcs51_emu.specs.Form.{unheld};

use mcs51_chip::ChipState;

/// A word is one.
fn word(x: u16)
    ensures { x < 65536 }
{}

/// A byte is one.
fn byte(x: u8)
    ensures { x < 256 }
{}

/// Bytes are bytes.
fn bytes(ram: &[u8])
    ensures { All (λ b. b < 256) ram.now }
{}

/// A state has its form where no bit is set that it doesn't hold: its fields are bytes and words.
pub fn has_form(s: &ChipState)
    requires { unheld s.now ≡ 0 }
    ensures { IsChipState s.now }
{
    word(s.pc);
    byte(s.a);
    byte(s.b);
    byte(s.sp);
    byte(s.dpl);
    byte(s.dph);
    byte(s.psw);
    byte(s.ie);
    bytes(&s.ram);
}
