//! The fields of operands.

ghost use Rattle.std.specs.Prelude.{◌≡◌, ◌<◌, ◌*◌, length};
ghost use Rattle.std.specs.Option.{option_to_list};
ghost use Rattle.msp430_decode.specs.Operands.{constant_register, constant_mode, source_register, source_mode, source_words, destination_register, destination_mode, destination_words};

use crate::instr::{Constant, Destination, Register, Source};

fn register_of_constant(constant: Constant) -> Register
    ensures { result ≡ constant_register constant }
{
    match constant {
        Constant::Four | Constant::Eight => Register::Sr,
        Constant::Zero | Constant::One | Constant::Two | Constant::MinusOne => Register::R3,
    }
}

fn mode_of_constant(constant: Constant) -> u16
    ensures value { result ≡ constant_mode constant }
    ensures below { result < 4 }
{
    match constant {
        Constant::Zero => 0,
        Constant::One => 1,
        Constant::Two | Constant::Four => 2,
        Constant::Eight | Constant::MinusOne => 3,
    }
}

/// The register field of a source.
pub fn register_of_source(source: Source) -> Register
    ensures { result ≡ source_register source }
{
    match source {
        Source::Register(register)
        | Source::Indexed { register, .. }
        | Source::Indirect(register)
        | Source::IndirectIncrement(register) => register,
        Source::Immediate(_) | Source::Symbolic(_) => Register::Pc,
        Source::Absolute(_) => Register::Sr,
        Source::Constant(constant) => register_of_constant(constant),
    }
}

/// As of a source.
pub fn mode_of_source(source: Source) -> u16
    ensures value { result ≡ source_mode source }
    ensures below { result < 4 }
{
    match source {
        Source::Register(_) => 0,
        Source::Indexed { .. } | Source::Symbolic(_) | Source::Absolute(_) => 1,
        Source::Indirect(_) => 2,
        Source::IndirectIncrement(_) | Source::Immediate(_) => 3,
        Source::Constant(constant) => mode_of_constant(constant),
    }
}

/// The extension word of a source, where it has one.
pub fn word_of_source(source: Source) -> Option<u16>
    ensures { option_to_list result ≡ source_words source }
{
    match source {
        Source::Indexed { offset: word, .. }
        | Source::Immediate(word)
        | Source::Symbolic(word)
        | Source::Absolute(word) => Some(word),
        Source::Register(_)
        | Source::Indirect(_)
        | Source::IndirectIncrement(_)
        | Source::Constant(_) => None,
    }
}

/// The register field of a destination.
pub fn register_of_destination(destination: Destination) -> Register
    ensures { result ≡ destination_register destination }
{
    match destination {
        Destination::Register(register) | Destination::Indexed { register, .. } => register,
        Destination::Symbolic(_) => Register::Pc,
        Destination::Absolute(_) => Register::Sr,
    }
}

/// Ad of a destination.
pub fn mode_of_destination(destination: Destination) -> u16
    ensures value { result ≡ destination_mode destination }
    ensures below { result < 2 }
{
    match destination {
        Destination::Register(_) => 0,
        Destination::Indexed { .. } | Destination::Symbolic(_) | Destination::Absolute(_) => 1,
    }
}

/// The extension word of a destination, where it has one.
pub fn word_of_destination(destination: Destination) -> Option<u16>
    ensures { option_to_list result ≡ destination_words destination }
{
    match destination {
        Destination::Indexed { offset: word, .. }
        | Destination::Symbolic(word)
        | Destination::Absolute(word) => Some(word),
        Destination::Register(_) => None,
    }
}

/// How many bytes of extension words a destination takes.
pub fn length_of_destination(destination: Destination) -> u8
    ensures value { result ≡ 2 * length (destination_words destination) }
    ensures fits { result < 3 }
{
    if word_of_destination(destination).is_some() {
        2
    } else {
        0
    }
}

impl Source {
    /// How many bytes of extension words a source takes: 0 or 2.
    pub fn extension_length(self) -> u8
        ensures value { result ≡ 2 * length (source_words self) }
        ensures fits { result < 3 }
    {
        if word_of_source(self).is_some() { 2 } else { 0 }
    }
}
