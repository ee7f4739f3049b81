//! The program of the MSP430.

ghost use Rattle.std.specs.Prelude.{◌≡◌, ◌+◌, ◌*◌, ◌≤◌, IfOk, length, flat_map};
ghost use Rattle.image_gen.specs.Made.{low_first, msp430_function_at, msp430_words, msp430_program};

use no_memory::Memory;
use std::alloc::{AllocError, Global};

/// Where the program starts.
pub const START: u16 = 0x4000;

/// Where the word stands at which the chip starts.
pub const RESET: u16 = 0xFFFE;

/// The bytes of a program of `number` functions.
pub fn program(alloc: Global, number: u16) -> Result<Vec<u8>, Memory>
    requires { number ≤ 2000 }
    ensures value { IfOk result (λ bytes. bytes.items ≡ msp430_program number) }
    ensures size { IfOk result (λ bytes. length bytes.items ≡ 6 + 14 * number) }
{
    let words = words(alloc, number)?;
    let mut bytes = Vec::new(alloc);
    for word in &words {
        bytes.extend_from_slice(&[(*word % 256) as u8, (*word / 256) as u8])?;
    }
    Ok(bytes)
}

/// The words of the program.
fn words(alloc: Global, number: u16) -> Result<Vec<u16>, AllocError>
    requires { number ≤ 2000 }
    ensures { IfOk result (λ words. words.items ≡ msp430_words number) }
{
    let mut words = Vec::new(alloc);
    words.extend_from_slice(&[0x4031, 0x0A00])?;
    for i in 0..number {
        words.extend_from_slice(&[0x12B0, function_at(number, i)])?;
    }
    words.push(0x3FFF)?;
    for i in 0..number {
        let stored = 0x0200 + 2 * (i % 64);
        words.extend_from_slice(&[0x5035, i, 0x4582, stored, 0x4130])?;
    }
    Ok(words)
}

/// The address of a function.
fn function_at(number: u16, i: u16) -> u16
    requires most { number ≤ 2000 }
    requires one { i ≤ 2000 }
    ensures { result ≡ msp430_function_at number i }
{
    START + 4 + 4 * number + 2 + 10 * i
}
