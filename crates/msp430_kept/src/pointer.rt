//! The registers through which instructions store.

ghost use Rattle.std.specs.Prelude.{◌≡◌, ◌≤◌, ◌<◌, IfSome};
ghost use Rattle.msp430_branch.specs.Facts as facts;
ghost use Rattle.msp430_chip.specs.Arithmetic as arithmetic;
ghost use Rattle.msp430_kept.specs.Sites as specs;

use msp430_decode::{Destination, Instr, Operation, Register, SingleOperation, Source, Width};

/// One of R4 to R15, with what is added to it as it stands in front of the instruction that stores through it.
#[derive(Clone, Copy, Debug, PartialEq, Eq)]
pub struct Pointer {
    pub register: u8,
    pub added: u16,
}

/// The number of a register that is one of R4 to R15.
fn general_number(register: Register) -> Option<u8>
    ensures value { result ≡ facts.general_number register }
    ensures above { IfSome result (λ number. 4 ≤ number) }
    ensures below { IfSome result (λ number. number < 16) }
{
    match register {
        Register::Pc | Register::Sp | Register::Sr | Register::R3 => None,
        _ => Some(register.number()),
    }
}

/// A register, if it is one of these, with what is added to it.
fn pointer_at(register: Register, added: u32) -> Option<Pointer>
    ensures value { result ≡ specs.pointer_at register added }
    ensures above { IfSome result (λ pointer. 4 ≤ pointer.register) }
    ensures below { IfSome result (λ pointer. pointer.register < 16) }
{
    let register = general_number(register)?;
    let added = (added % 65536) as u16;
    Some(Pointer { register, added })
}

/// By how much `@Rn+` grows a register before a destination is formed by it.
fn grown_by(width: Width, source: Source, pointer: Register) -> u32
    ensures value { result ≡ specs.grown_by width source pointer }
    ensures most { result ≤ 2 }
{
    match (source, width) {
        (Source::IndirectIncrement(register), Width::Word)
            if register.number() == pointer.number() => { 2 }
        (Source::IndirectIncrement(register), Width::Byte)
            if register.number() == pointer.number() => {
            if register == Register::Sp { 2 } else { 1 }
        }
        _ => 0,
    }
}

/// The pointer of a destination.
pub(crate) fn target_pointer(
    width: Width,
    source: Source,
    destination: Destination,
) -> Option<Pointer>
    ensures value { result ≡ specs.target_pointer width source destination }
    ensures above { IfSome result (λ pointer. 4 ≤ pointer.register) }
    ensures below { IfSome result (λ pointer. pointer.register < 16) }
{
    match destination {
        Destination::Indexed { register, offset } => {
            pointer_at(register, grown_by(width, source, register) + offset as u32)
        }
        _ => None,
    }
}

/// The pointer of an operand that is read and written.
fn operand_pointer(operand: Source) -> Option<Pointer>
    ensures value { result ≡ specs.operand_pointer operand }
    ensures above { IfSome result (λ pointer. 4 ≤ pointer.register) }
    ensures below { IfSome result (λ pointer. pointer.register < 16) }
{
    match operand {
        Source::Indexed { register, offset } => pointer_at(register, offset as u32),
        Source::Indirect(register) | Source::IndirectIncrement(register) => pointer_at(register, 0),
        _ => None,
    }
}

/// The pointer of an instruction with one operand. PUSH and CALL store by SP.
pub(crate) fn single_pointer(operation: SingleOperation, operand: Source) -> Option<Pointer>
    ensures value { result ≡ specs.single_pointer operation operand }
    ensures above { IfSome result (λ pointer. 4 ≤ pointer.register) }
    ensures below { IfSome result (λ pointer. pointer.register < 16) }
{
    match operation {
        SingleOperation::Push | SingleOperation::Call => None,
        _ => operand_pointer(operand),
    }
}

/// Whether an operation writes its result: all but CMP and BIT.
pub(crate) fn writes_result(operation: Operation) -> bool
    ensures { result ≡ arithmetic.writes_result operation }
{
    !matches!(operation, Operation::Cmp | Operation::Bit)
}

/// The register through which an instruction stores, if it is one of R4 to R15, with what is added to it: also what `@Rn+` adds
/// to it before the destination is formed.
pub fn pointer_of(instr: &Instr) -> Option<Pointer>
    ensures value { result ≡ specs.pointer_of instr.now }
    ensures above { IfSome result (λ pointer. 4 ≤ pointer.register) }
    ensures below { IfSome result (λ pointer. pointer.register < 16) }
{
    match *instr {
        Instr::Double {
            operation,
            width,
            source,
            destination,
        } => {
            if writes_result(operation) {
                target_pointer(width, source, destination)
            } else {
                None
            }
        }
        Instr::Single {
            operation,
            operand,
            ..
        } => single_pointer(operation, operand),
        Instr::Jump { .. } | Instr::ReturnFromInterrupt => None,
    }
}
