//! An instruction, and where it stands.

use crate::memory::Layout;
use msp430_chip::ChipState;
use msp430_decode::{Destination, Operation, SingleOperation, Source, Width};

/// A state of a machine in front of an instruction of so many bytes.
#[derive(Drop)]
pub(crate) struct Here<'a> {
    pub layout: &'a Layout<'a>,
    pub s: &'a ChipState,
    pub len: u8,
}

/// An instruction on one operand.
#[derive(Clone, Copy)]
pub(crate) struct OneOperand {
    pub operation: SingleOperation,
    pub width: Width,
    pub operand: Source,
}

/// An instruction on two operands.
#[derive(Clone, Copy)]
pub(crate) struct TwoOperands {
    pub operation: Operation,
    pub width: Width,
    pub source: Source,
    pub destination: Destination,
}
