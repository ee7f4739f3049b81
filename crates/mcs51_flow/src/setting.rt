//! What an analysis is set to.

use analysis_limits::Limits;
use call_context::Sequence;
use image::Image;
use promises::Promise;

/// A program, the limits of its analysis, and what is promised of its steps.
#[derive(Drop)]
pub struct Setting {
    pub image: Image,
    pub limits: Limits,
    pub promises: Sequence<Promise>,
}
