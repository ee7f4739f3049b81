//! What a unit of work shows of the program.

ghost use Rattle.std.specs.Prelude.{◌≡◌, ◌≤◌, ◌<◌, ◌++◌, ◌∷◌, [], length};

use arrayvec::ArrayVec;
use chip_numbers::Space;
use std::marker::Model;
use value_set::{Vs8, Vs16};

/// A value set of either width.
#[derive(Clone, Copy, Debug, PartialEq, Eq, Hash)]
pub enum Set {
    /// Of bytes.
    B(Vs8),
    /// Of words.
    W(Vs16),
}

/// The bytes of one instruction, at most 6.
#[derive(Drop)]
pub struct InstrBytes {
    bytes: ArrayVec<u8, 6>,
}

impl Model for InstrBytes {
    ghost use Rattle.std.specs.Prelude.{List, ℕ};

    ghost Value = { List ℕ };

    ghost view = { λ b. b.bytes.items };
}

impl InstrBytes {
    /// The instruction of these bytes.
    pub fn from_slice(bytes: &[u8]) -> Self
        requires { length bytes.now ≤ 6 }
        ensures { result ≡ bytes.now }
    {
        let mut all = ArrayVec::new();
        for byte in bytes {
            all.push(*byte);
        }
        InstrBytes { bytes: all }
    }

    /// The bytes in order of address.
    pub fn as_slice(&self) -> &[u8]
        ensures { result.now ≡ self.now }
    {
        self.bytes.as_slice()
    }

    /// The same bytes.
    pub fn copy(&self) -> Self
        ensures { result ≡ self.now }
    {
        InstrBytes::from_slice(self.bytes.as_slice())
    }
}

impl PartialEq for InstrBytes {
    ghost use Rattle.std.proofs.Common.{rules};
    ghost use Rattle.std.specs.Cmp.Lexicographic.{pointwise};
    ghost use Rattle.std.specs.Cmp.Rules.{comparing};
    ghost use Rattle.std.proofs.Math.Dec.{eqb};

    ghost eq = { pointwise eqb };

    ghost laws = { Prim.search (comparing, rules) };

    fn eq(&self, other: &InstrBytes) -> bool {
        self.as_slice() == other.as_slice()
    }
}

impl Eq for InstrBytes {
    ghost use Rattle.std.proofs.Common.{rules};
    ghost use Rattle.std.specs.Cmp.Rules.{comparing};

    ghost laws = { Prim.search (comparing, rules) };
}

/// What a step of the program does.
#[derive(Drop, PartialEq, Eq)]
pub enum Item {
    /// An instruction runs.
    Instr {
        pc: u16,
        bytes: InstrBytes,
    },
    /// Control goes from one address to another.
    Edge {
        from: u16,
        to: u16,
    },
    /// Memory is read or written, `size` bytes at one of the addresses.
    Access {
        pc: u16,
        space: Space,
        write: bool,
        size: u8,
        at: Set,
    },
    /// The stack pointer has one of the values.
    Stack {
        pc: u16,
        at: Set,
    },
}

impl Item {
    /// An equal item.
    pub fn copy(&self) -> Self
        ensures { result ≡ self.now }
    {
        match self {
            Item::Instr { pc, bytes } => Item::Instr {
                pc: *pc,
                bytes: bytes.copy(),
            },
            Item::Edge { from, to } => Item::Edge {
                from: *from,
                to: *to,
            },
            Item::Access {
                pc,
                space,
                write,
                size,
                at,
            } => Item::Access {
                pc: *pc,
                space: *space,
                write: *write,
                size: *size,
                at: *at,
            },
            Item::Stack { pc, at } => Item::Stack { pc: *pc, at: *at },
        }
    }
}

impl Default for Item {
    fn default() -> Self {
        Item::Edge { from: 0, to: 0 }
    }
}
