//! What an analysis is set to.

use analysis_limits::Limits;
use call_context::Sequence;
use msp430_chip::Device;
use promises::Promise;

/// A program on its device, the limits of its analysis, and what is promised of its steps.
#[derive(Drop)]
pub struct Setting {
    pub device: Device,
    pub limits: Limits,
    pub promises: Sequence<Promise>,
}
