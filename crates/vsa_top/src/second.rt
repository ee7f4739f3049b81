//! Reading the text behind an image text, and its assertions.

ghost use Rattle.std.specs.Prelude.{◌≡◌, ◌≢◌, ◌≤◌, ◌<◌, length, IfOk, IfErr, OnOk, IfSome};
ghost use Rattle.vsa_top.specs.Asserted.{AreAsserted, LacksAssertions};
ghost use Rattle.vsa_top.specs.Faults.{TellsFaults};
ghost use Rattle.vsa_top.specs.Input.{begun_with};

use crate::script::ScriptRefusal;
use assert_check::{AssertError, Assertion, MOST_BYTES, read_lines};
use chip_numbers::Space;
use std::alloc::{AllocError, Global};
use streams::{Failed, Source};

/// Why what stands behind an image text isn't read.
#[derive(Clone, Copy, Debug, PartialEq, Eq)]
pub enum SecondError {
    /// The source failed.
    Failed,
    /// Memory was refused.
    Memory,
    /// There are more bytes than a second text may have.
    TooLong,
}

impl From<Failed> for SecondError {
    ghost use Rattle.vsa_top.specs.declared.second.SecondError.TheVariants as second_error;

    ghost from_gives = { λ _ e. e ≡ second_error.Failed };

    fn from(_error: Failed) -> SecondError {
        SecondError::Failed
    }
}

impl From<AllocError> for SecondError {
    ghost use Rattle.vsa_top.specs.declared.second.SecondError.TheVariants as second_error;

    ghost from_gives = { λ _ e. e ≡ second_error.Memory };

    fn from(_error: AllocError) -> SecondError {
        SecondError::Memory
    }
}

impl From<SecondError> for ScriptRefusal {
    ghost use Rattle.vsa_top.specs.Asserted.{unread_of};

    ghost from_gives = { λ error e. e ≡ unread_of error };

    fn from(error: SecondError) -> ScriptRefusal {
        match error {
            SecondError::Failed => ScriptRefusal::Failed,
            SecondError::Memory => ScriptRefusal::Memory,
            SecondError::TooLong => ScriptRefusal::TooLong,
        }
    }
}

impl From<AssertError> for ScriptRefusal {
    ghost use Rattle.vsa_top.specs.Asserted.{refusal_of};

    ghost from_gives = { λ error e. e ≡ refusal_of error };

    fn from(error: AssertError) -> ScriptRefusal {
        match error {
            AssertError::Syntax { line } => ScriptRefusal::Syntax { line },
            AssertError::Memory => ScriptRefusal::Memory,
        }
    }
}

/// The text that a source's text is behind the bytes that were read of it, where it isn't too long.
pub fn second_in<S: Source>(
    alloc: Global,
    source: &mut S,
    begun: &[u8],
) -> Result<Vec<u8>, SecondError>
    ensures text { IfOk result (λ text. IfSome (begun_with begun.now (S.left source.old)) (λ whole. whole ≡ text.items)) }
    ensures fits { IfOk result (λ text. length text.items ≤ MOST_BYTES) }
    ensures long { IfErr result (λ error. error ≡ SecondError.TooLong
        → IfSome (begun_with begun.now (S.left source.old)) (λ whole. MOST_BYTES < length whole)) }
    ensures faults { TellsFaults SecondError.Failed (S.faults source.old) (S.faults source.new) result }
{
    let mut text = Vec::from_slice(alloc, begun)?;
    let mut buffer = [0u8; 4096];
    loop {
        if text.len() > MOST_BYTES {
            return Err(SecondError::TooLong);
        }
        let count = source.read(&mut buffer)?;
        if count == 0 {
            return Ok(text);
        }
        text.extend_from_slice(&buffer[..count])?;
    }
}

/// The assertions that stand in a source's text behind the bytes that were read of it, of a chip with these spaces.
pub fn assertions_in<S: Source>(
    alloc: Global,
    source: &mut S,
    begun: &[u8],
    spaces: &[Space],
) -> Result<Vec<(u32, Assertion)>, ScriptRefusal>
    ensures list { IfOk result (λ list. IfSome (begun_with begun.now (S.left source.old)) (λ text. AreAsserted spaces.now text list.items)) }
    ensures refused { IfErr result (λ error. IfSome (begun_with begun.now (S.left source.old)) (λ text. LacksAssertions spaces.now text error)) }
    ensures faults { TellsFaults ScriptRefusal.Failed (S.faults source.old) (S.faults source.new) result }
{
    let text = second_in(alloc, source, begun)?;
    Ok(read_lines(alloc, text.as_slice(), spaces)?)
}
