//! What an instruction says, in the words of an assembly programmer. A number of eight bits that is an operand is a byte
//! of the instruction; `rel` is signed and counts from the following address.

/// The working registers of the bank that is selected.
#[derive(Clone, Copy, Debug, PartialEq, Eq)]
pub enum Register {
    R0,
    R1,
    R2,
    R3,
    R4,
    R5,
    R6,
    R7,
}

/// The working registers that can hold an address.
#[derive(Clone, Copy, Debug, PartialEq, Eq)]
pub enum Pointer {
    R0,
    R1,
}

/// A byte that is reached through a working register.
#[derive(Clone, Copy, Debug, PartialEq, Eq)]
pub enum Working {
    /// `@Ri`: RAM at the register.
    Indirect(Pointer),
    /// `Rn`: the register.
    Register(Register),
}

/// A byte of RAM or a special function register.
#[derive(Clone, Copy, Debug, PartialEq, Eq)]
pub enum Memory {
    /// `dir`: RAM below 80h, and the special function registers from there on.
    Direct(u8),
    /// `@Ri` or `Rn`.
    Working(Working),
}

/// A byte that is read.
#[derive(Clone, Copy, Debug, PartialEq, Eq)]
pub enum Source {
    /// `#d`.
    Immediate(u8),
    /// `dir`, `@Ri` or `Rn`.
    Memory(Memory),
}

/// A byte that is written.
#[derive(Clone, Copy, Debug, PartialEq, Eq)]
pub enum Place {
    /// `A`.
    Accumulator,
    /// `dir`, `@Ri` or `Rn`.
    Memory(Memory),
}

/// The operations on the accumulator and a source.
#[derive(Clone, Copy, Debug, PartialEq, Eq)]
pub enum Operation {
    Add,
    Addc,
    Orl,
    Anl,
    Xrl,
    Subb,
}

/// The operations on a direct byte and a mask.
#[derive(Clone, Copy, Debug, PartialEq, Eq)]
pub enum Logic {
    Orl,
    Anl,
    Xrl,
}

/// The mask of such an operation.
#[derive(Clone, Copy, Debug, PartialEq, Eq)]
pub enum Mask {
    /// `A`.
    Accumulator,
    /// `#d`.
    Immediate(u8),
}

/// The operations on the accumulator alone.
#[derive(Clone, Copy, Debug, PartialEq, Eq)]
pub enum AccumulatorOperation {
    Rr,
    Rrc,
    Rl,
    Rlc,
    Swap,
    Da,
    Clr,
    Cpl,
}

/// The operations on the carry alone.
#[derive(Clone, Copy, Debug, PartialEq, Eq)]
pub enum CarryOperation {
    Cpl,
    Clr,
    Setb,
}

/// The operations that write the carry by a bit.
#[derive(Clone, Copy, Debug, PartialEq, Eq)]
pub enum CarryByBit {
    /// `ORL C,bit`.
    Orl,
    /// `ANL C,bit`.
    Anl,
    /// `ORL C,/bit`.
    OrlComplement,
    /// `ANL C,/bit`.
    AnlComplement,
    /// `MOV C,bit`.
    Mov,
}

/// The operations that write a bit.
#[derive(Clone, Copy, Debug, PartialEq, Eq)]
pub enum BitOperation {
    /// `MOV bit,C`.
    MovCarry,
    Cpl,
    Clr,
    Setb,
}

/// When a jump that looks at the carry or at the accumulator is taken.
#[derive(Clone, Copy, Debug, PartialEq, Eq)]
pub enum Condition {
    /// JC.
    Carry,
    /// JNC.
    NoCarry,
    /// JZ: the accumulator is 0.
    Zero,
    /// JNZ.
    NotZero,
    /// SJMP.
    Always,
}

/// When a jump that looks at a bit is taken.
#[derive(Clone, Copy, Debug, PartialEq, Eq)]
pub enum BitTest {
    /// JBC: it is set, and is then cleared.
    SetAndClear,
    /// JB.
    Set,
    /// JNB.
    Clear,
}

/// The two bytes that CJNE compares.
#[derive(Clone, Copy, Debug, PartialEq, Eq)]
pub enum Comparison {
    /// `A,#d`.
    AccumulatorImmediate(u8),
    /// `A,dir`.
    AccumulatorDirect(u8),
    /// `@Ri,#d` or `Rn,#d`.
    WorkingImmediate { operand: Working, value: u8 },
}

/// The byte that DJNZ lowers.
#[derive(Clone, Copy, Debug, PartialEq, Eq)]
pub enum Counter {
    /// `dir`.
    Direct(u8),
    /// `Rn`.
    Register(Register),
}

/// What MOVC adds the accumulator to.
#[derive(Clone, Copy, Debug, PartialEq, Eq)]
pub enum CodeBase {
    /// `@A+PC`: the following address.
    ProgramCounter,
    /// `@A+DPTR`.
    DataPointer,
}

/// A byte of external memory.
#[derive(Clone, Copy, Debug, PartialEq, Eq)]
pub enum External {
    /// `@DPTR`.
    DataPointer,
    /// `@Ri`.
    Indirect(Pointer),
}

/// An instruction.
#[derive(Clone, Copy, Debug, PartialEq, Eq)]
pub enum Instr {
    /// NOP.
    Nop,
    /// AJMP, with the low eleven bits of its target: 0 to 2047.
    AbsoluteJump(u16),
    /// ACALL, with the low eleven bits of its target: 0 to 2047.
    AbsoluteCall(u16),
    /// LJMP.
    LongJump(u16),
    /// LCALL.
    LongCall(u16),
    /// RET.
    Return,
    /// RETI.
    ReturnFromInterrupt,
    /// `JMP @A+DPTR`.
    JumpIndirect,
    /// JC, JNC, JZ, JNZ and SJMP.
    JumpOn {
        condition: Condition,
        rel: u8,
    },
    /// JBC, JB and JNB.
    JumpOnBit {
        test: BitTest,
        bit: u8,
        rel: u8,
    },
    /// CJNE.
    CompareJump {
        comparison: Comparison,
        rel: u8,
    },
    /// DJNZ.
    DecrementJump {
        counter: Counter,
        rel: u8,
    },
    /// RR, RRC, RL, RLC, SWAP, DA, CLR and CPL of A.
    ChangeAccumulator(AccumulatorOperation),
    /// INC of a byte.
    Increment(Place),
    /// DEC.
    Decrement(Place),
    /// `INC DPTR`.
    IncrementDataPointer,
    /// ADD, ADDC, ORL, ANL, XRL and SUBB of A.
    Accumulate {
        operation: Operation,
        source: Source,
    },
    /// ORL, ANL and XRL of a direct byte.
    DirectLogic {
        operation: Logic,
        direct: u8,
        mask: Mask,
    },
    /// MUL.
    Multiply,
    /// DIV.
    Divide,
    /// CPL, CLR and SETB of C.
    ChangeCarry(CarryOperation),
    /// ORL, ANL and MOV of C with a bit.
    CarryBit {
        operation: CarryByBit,
        bit: u8,
    },
    /// MOV, CPL, CLR and SETB of a bit.
    ChangeBit {
        operation: BitOperation,
        bit: u8,
    },
    /// MOV of `#d` to a byte.
    MoveImmediate {
        to: Place,
        value: u8,
    },
    /// MOV to `dir` from `dir`, `@Ri` or `Rn`.
    MoveToDirect {
        to: u8,
        from: Memory,
    },
    /// MOV from `dir` to `@Ri` or `Rn`.
    MoveFromDirect {
        to: Working,
        from: u8,
    },
    /// `MOV DPTR,#d16`.
    LoadDataPointer(u16),
    /// MOV to A from `dir`, `@Ri` or `Rn`.
    Load(Memory),
    /// MOV of A to `dir`, `@Ri` or `Rn`.
    Store(Memory),
    /// MOVC.
    MoveCode(CodeBase),
    /// MOVX to A.
    ReadExternal(External),
    /// MOVX of A.
    WriteExternal(External),
    /// PUSH.
    Push(u8),
    /// POP.
    Pop(u8),
    /// XCH.
    Exchange(Memory),
    /// XCHD.
    ExchangeDigit(Pointer),
}
