//! Stores that may write a byte of the program.

ghost use Rattle.std.specs.Prelude.{◌≡◌, is_some};
ghost use Rattle.msp430_chip.specs.Memory as memory;
ghost use Rattle.msp430_flow.specs.Running as running;

use msp430_chip::Device;
use msp430_decode::Width;
use value_set::Vs16;

/// Whether a store that is made at an address writes a byte of the program.
#[tactic(auto, unfolding(msp430_chip::specs::Memory::hit_at))]
fn hits(device: &Device, width: Width, at: u16) -> bool
    ensures { result ≡ is_some (memory.hit_at device.now width at) }
{
    match width {
        Width::Word => {
            device.image.byte(at).is_some() || device.image.byte(at.wrapping_add(1)).is_some()
        }
        Width::Byte => device.image.byte(at).is_some(),
    }
}

/// Whether a store at one of some addresses writes a byte of the program.
pub fn may_hit(device: &Device, width: Width, set: &Vs16) -> bool
    ensures { result ≡ running.may_hit device.now width set.now }
{
    for place in 0..set.count() {
        if hits(device, width, set.nth(place)) {
            return true;
        }
    }
    false
}
