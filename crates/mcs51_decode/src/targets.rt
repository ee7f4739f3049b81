//! Where jumps and calls go.

ghost use Rattle.std.specs.Prelude.{◌≡◌, ◌<◌, ◌+◌, ◌*◌, ◌/◌, ◌%◌};
ghost use Rattle.mcs51_decode.specs.Targets.{following, relative_target, absolute_target, target_of};

use crate::instr::Instr;

/// The target of a relative jump: its byte is signed, and counts from the following address.
fn relative(next: u16, rel: u8) -> u16
    ensures { result ≡ relative_target next rel }
{
    let forward = next as u32 + rel as u32;
    if rel < 128 {
        (forward % 65536) as u16
    } else {
        ((forward + 65280) % 65536) as u16
    }
}

/// The target of AJMP or ACALL: the low eleven bits, in the page of the following address.
fn absolute(next: u16, target: u16) -> u16
    ensures { result ≡ absolute_target next target }
{
    next / 2048 * 2048 + target % 2048
}

impl Instr {
    /// The address behind an instruction at an address.
    pub fn following(&self, pc: u16) -> u16
        ensures { result ≡ following pc self.now }
    {
        pc.wrapping_add(self.length() as u16)
    }

    /// Where an instruction at an address jumps or calls, where its bytes say so: not for RET, RETI and JMP @A+DPTR.
    pub fn target(&self, pc: u16) -> Option<u16>
        ensures { result ≡ target_of pc self.now }
    {
        let next = self.following(pc);
        match *self {
            Instr::AbsoluteJump(target) | Instr::AbsoluteCall(target) => Some(absolute(
                next, target,
            )),
            Instr::LongJump(target) | Instr::LongCall(target) => Some(target),
            Instr::JumpOn { rel, .. }
            | Instr::JumpOnBit { rel, .. }
            | Instr::CompareJump { rel, .. }
            | Instr::DecrementJump { rel, .. } => Some(relative(next, rel)),
            _ => None,
        }
    }
}
