//! Where bytes stand.

/// The special function registers that hold something, and the others.
#[derive(Clone, Copy, Debug, PartialEq, Eq)]
pub enum Sfr {
    Sp,
    Dpl,
    Dph,
    Ie,
    Ip,
    Psw,
    Acc,
    B,
    /// Ports, timers and all else: it reads as any byte, and holds nothing.
    Other,
}

/// A byte of RAM or a special function register.
#[derive(Clone, Copy, Debug, PartialEq, Eq)]
pub enum Address {
    InRam(u8),
    /// A special function register: 80h to FFh.
    InSfr(u8),
}

/// A read or a write of one byte.
#[derive(Clone, Copy, Debug, PartialEq, Eq)]
pub enum Access {
    /// Of RAM or of a special function register.
    Internal { write: bool, address: Address },
    /// Of external RAM.
    External { write: bool, at: u16 },
    /// A read of the program.
    Code { at: u16 },
}
