//! What an instruction says, in the words of an assembly programmer.

ghost use Rattle.std.specs.Prelude.{◌≡◌, ◌<◌};
ghost use Rattle.msp430_decode.specs.Codes.{number};
ghost use Rattle.msp430_decode.specs.Operands.{constant_value};

/// The sixteen registers. R0 is the program counter, R1 the stack pointer, R2 the status register.
#[derive(Clone, Copy, Debug, PartialEq, Eq)]
pub enum Register {
    Pc,
    Sp,
    Sr,
    R3,
    R4,
    R5,
    R6,
    R7,
    R8,
    R9,
    R10,
    R11,
    R12,
    R13,
    R14,
    R15,
}

impl Register {
    /// The number of a register, below 16.
    pub fn number(self) -> u8
        ensures value { result ≡ number self }
        ensures below { result < 16 }
    {
        match self {
            Register::Pc => 0,
            Register::Sp => 1,
            Register::Sr => 2,
            Register::R3 => 3,
            Register::R4 => 4,
            Register::R5 => 5,
            Register::R6 => 6,
            Register::R7 => 7,
            Register::R8 => 8,
            Register::R9 => 9,
            Register::R10 => 10,
            Register::R11 => 11,
            Register::R12 => 12,
            Register::R13 => 13,
            Register::R14 => 14,
            Register::R15 => 15,
        }
    }
}

/// Whether an instruction works on words or on bytes.
#[derive(Clone, Copy, Debug, PartialEq, Eq)]
pub enum Width {
    Word,
    Byte,
}

/// The constants that SR and R3 generate without an extension word.
#[derive(Clone, Copy, Debug, PartialEq, Eq)]
pub enum Constant {
    Zero,
    One,
    Two,
    Four,
    Eight,
    /// All bits set.
    MinusOne,
}

impl Constant {
    /// The number that is generated.
    pub fn value(self) -> u16
        ensures { result ≡ constant_value self }
    {
        match self {
            Constant::Zero => 0,
            Constant::One => 1,
            Constant::Two => 2,
            Constant::Four => 4,
            Constant::Eight => 8,
            Constant::MinusOne => 0xFFFF,
        }
    }
}

/// A source operand, or the operand of a single operand instruction. A number is an extension word.
#[derive(Clone, Copy, Debug, PartialEq, Eq)]
pub enum Source {
    /// `Rn`. As a source R3 is the constant 0 instead.
    Register(Register),
    /// `X(Rn)`: memory at the register plus X. The register isn't PC, SR or R3.
    Indexed { register: Register, offset: u16 },
    /// `@Rn`: memory at the register. The register isn't PC, SR or R3.
    Indirect(Register),
    /// `@Rn+`: the same, and then the register grows. The register isn't PC, SR or R3.
    IndirectIncrement(Register),
    /// `#N`, of which a byte instruction uses the low byte.
    Immediate(u16),
    /// `ADDR`: memory at this number plus the address of the extension word.
    Symbolic(u16),
    /// `&ADDR`: memory at this address.
    Absolute(u16),
    /// `#N`, from a generator of constants.
    Constant(Constant),
}

/// A destination operand. A number is an extension word.
#[derive(Clone, Copy, Debug, PartialEq, Eq)]
pub enum Destination {
    /// `Rn`.
    Register(Register),
    /// `X(Rn)`: memory at the register plus X. The register isn't PC, SR or R3.
    Indexed { register: Register, offset: u16 },
    /// `ADDR`: memory at this number plus the address of the extension word.
    Symbolic(u16),
    /// `&ADDR`: memory at this address.
    Absolute(u16),
}

/// The operations on a source and a destination.
#[derive(Clone, Copy, Debug, PartialEq, Eq)]
pub enum Operation {
    Mov,
    Add,
    Addc,
    Subc,
    Sub,
    Cmp,
    Dadd,
    Bit,
    Bic,
    Bis,
    Xor,
    And,
}

/// The operations on one operand.
#[derive(Clone, Copy, Debug, PartialEq, Eq)]
pub enum SingleOperation {
    Rrc,
    Swpb,
    Rra,
    Sxt,
    Push,
    Call,
}

/// When a jump is taken.
#[derive(Clone, Copy, Debug, PartialEq, Eq)]
pub enum Condition {
    /// JNE: Z is 0.
    NotEqual,
    /// JEQ: Z is 1.
    Equal,
    /// JNC: C is 0.
    NoCarry,
    /// JC: C is 1.
    Carry,
    /// JN: N is 1.
    Negative,
    /// JGE: N and V are equal.
    GreaterOrEqual,
    /// JL: N and V differ.
    Less,
    /// JMP.
    Always,
}

/// An instruction.
#[derive(Clone, Copy, Debug, PartialEq, Eq)]
pub enum Instr {
    /// Format I.
    Double {
        operation: Operation,
        width: Width,
        source: Source,
        destination: Destination,
    },
    /// Format II.
    Single {
        operation: SingleOperation,
        width: Width,
        operand: Source,
    },
    /// A jump by a signed offset of ten bits (0 to 1023, where 1023 is -1), in words from the following instruction.
    Jump {
        condition: Condition,
        offset: u16,
    },
    /// RETI.
    ReturnFromInterrupt,
}
