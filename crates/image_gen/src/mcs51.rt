//! The program of the MCS-51.

ghost use Rattle.std.specs.Prelude.{◌≡◌, ◌+◌, ◌*◌, ◌≤◌, IfOk, length};
ghost use Rattle.image_gen.specs.Made.{mcs51_function_at, mcs51_program};

use no_memory::Memory;
use std::alloc::Global;

/// Where the chip starts.
pub const RESET: u16 = 0x0000;

/// Where the program starts.
pub const START: u16 = 0x0030;

/// LJMP 0030h.
pub const JUMP: [u8; 3] = [0x02, 0x00, 0x30];

/// The bytes of a program of `number` functions.
pub fn program(alloc: Global, number: u16) -> Result<Vec<u8>, Memory>
    requires { number ≤ 2000 }
    ensures value { IfOk result (λ bytes. bytes.items ≡ mcs51_program number) }
    ensures size { IfOk result (λ bytes. length bytes.items ≡ 5 + 10 * number) }
{
    let mut bytes = Vec::new(alloc);
    bytes.extend_from_slice(&[0x75, 0x81, 0x60])?;
    for i in 0..number {
        let target = function_at(number, i);
        bytes.extend_from_slice(&[0x12, (target / 256) as u8, (target % 256) as u8])?;
    }
    bytes.extend_from_slice(&[0x80, 0xFE])?;
    for i in 0..number {
        let added = (i % 256) as u8;
        bytes.extend_from_slice(&[0x74, added, 0x25, 0x30, 0xF5, 0x30, 0x22])?;
    }
    Ok(bytes)
}

/// The address of a function.
fn function_at(number: u16, i: u16) -> u16
    requires most { number ≤ 2000 }
    requires one { i ≤ 2000 }
    ensures { result ≡ mcs51_function_at number i }
{
    START + 3 + 3 * number + 2 + 7 * i
}
