//! Where the RAM of an MSP430 stands.

ghost use Rattle.std.specs.Prelude.{◌≡◌, ◌<◌, ◌↔◌, IsTrue, MatchOption};
ghost use Rattle.image.specs.Kept.{IsMirror, IsRamRange};
ghost use Rattle.image.specs.declared.ram_range.RamRange.{RamRange as ARamRange};

use crate::rule_set::Rules;

/// RAM from its lowest address to its highest, and the first and the last address of its mirror, where it answers a second
/// time, if there is one.
#[derive(Clone, Copy, Debug, PartialEq, Eq)]
pub struct RamRange {
    pub lo: u16,
    pub hi: u16,
    pub mirror: Option<(u16, u16)>,
}

/// Whether RAM from one address to another may answer a second time from this first address to this last one.
fn may_mirror(lo: u16, hi: u16, first: u16, last: u16) -> bool
    requires { lo < hi }
    ensures { IsTrue result ↔ IsMirror lo hi first last }
{
    first % 2 == 0
        && last % 2 == 1
        && first >= 0x0200
        && first < last
        && last - first <= hi - lo
        && (last < lo || hi < first)
}

impl RamRange {
    /// RAM that stands there, where the rules of the chip let it and its mirror stand there.
    pub fn new(lo: u16, hi: u16, mirror: Option<(u16, u16)>) -> Option<RamRange>
        ensures { (let asked : ARamRange = record { lo = lo; hi = hi; mirror = mirror } in
            MatchOption result (¬ IsRamRange (Rules.Msp430 asked)) (λ ram. (ram ≡ asked) × IsRamRange (Rules.Msp430 asked))) }
    {
        if lo % 2 != 0 || hi % 2 != 1 || lo < 0x0200 || hi <= lo {
            return None;
        }
        match mirror {
            Some((first, last)) if !may_mirror(lo, hi, first, last) => None,
            _ => Some(RamRange { lo, hi, mirror }),
        }
    }

    /// What such a chip asks of an image.
    pub fn rules(self) -> Rules
        ensures { result ≡ Rules.Msp430 self }
    {
        Rules::Msp430(self)
    }
}
