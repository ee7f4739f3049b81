//! Reading the script of a source, behind its image text.

ghost use Rattle.std.specs.Prelude.{◌≡◌, ◌≢◌, ◌+◌, ◌++◌, ◌<◌, ◌≤◌, ℕ, List, length, IfOk, IfErr, OnOk, IfSome};
ghost use Rattle.vsa_top.specs.Faults.{TellsFaults};
ghost use Rattle.vsa_top.specs.Input.{begun_with};
ghost use Rattle.vsa_top.specs.Scripts.{IsAt, IsScript, LacksScript};

use script_text::{MOST_BYTES, Reader, ScriptError, refusals_stay};
use std::alloc::Global;
use streams::{Failed, Source};

/// Why what stands behind an image text is no script.
#[derive(Clone, Copy, Debug, PartialEq, Eq)]
pub enum ScriptRefusal {
    /// The source failed.
    Failed,
    /// Memory was refused.
    Memory,
    /// The first line that is neither blank nor a number, counted from 1.
    Syntax { line: u32 },
    /// There are more bytes than a second text may have.
    TooLong,
}

impl From<Failed> for ScriptRefusal {
    ghost use Rattle.vsa_top.specs.declared.script.ScriptRefusal.TheVariants as refusal;

    ghost from_gives = { λ _ e. e ≡ refusal.Failed };

    fn from(_error: Failed) -> ScriptRefusal {
        ScriptRefusal::Failed
    }
}

impl From<ScriptError> for ScriptRefusal {
    ghost use Rattle.vsa_top.specs.Scripts.{refusal_of};

    ghost from_gives = { λ error e. e ≡ refusal_of error };

    fn from(error: ScriptError) -> ScriptRefusal {
        match error {
            ScriptError::Syntax { line } => ScriptRefusal::Syntax { line },
            ScriptError::Memory => ScriptRefusal::Memory,
        }
    }
}

/// Feeds a piece, of which there is room for so many bytes. A line that is refused is told at the end alone, since the text
/// may be too long.
fn feed_script(reader: &mut Reader, room: usize, piece: &[u8]) -> Result<(), ScriptRefusal>
    requires { (text : List ℕ) × IsAt reader.old text × (length text + room ≡ MOST_BYTES) }
    ensures within { OnOk result (length piece.now ≤ room) }
    ensures fed { OnOk result ((text : List ℕ) → IsAt reader.old text → IsAt reader.new (text ++ piece.now)) }
    ensures refused { IfErr result (λ error. (error ≡ ScriptRefusal.TooLong → room < length piece.now)
        × (error ≢ ScriptRefusal.TooLong → error ≡ ScriptRefusal.Memory)) }
{
    refusals_stay();
    if piece.len() > room {
        return Err(ScriptRefusal::TooLong);
    }
    match reader.feed(piece) {
        Ok(()) => Ok(()),
        Err(ScriptError::Syntax { .. }) => Ok(()),
        Err(ScriptError::Memory) => Err(ScriptRefusal::Memory),
    }
}

/// The script that a source's text is behind the bytes that were read of it. The text is read in pieces, and none of them
/// is kept.
pub fn script_in<S: Source>(
    alloc: Global,
    source: &mut S,
    begun: &[u8],
) -> Result<Vec<u16>, ScriptRefusal>
    ensures script { IfOk result (λ script. IfSome (begun_with begun.now (S.left source.old)) (λ text. IsScript text script.items)) }
    ensures refused { IfErr result (λ error. IfSome (begun_with begun.now (S.left source.old)) (λ text. LacksScript text error)) }
    ensures faults { TellsFaults ScriptRefusal.Failed (S.faults source.old) (S.faults source.new) result }
{
    let mut reader = Reader::new(alloc);
    let mut buffer = [0u8; 4096];
    feed_script(&mut reader, MOST_BYTES, begun)?;
    let mut room = MOST_BYTES - begun.len();
    loop {
        let count = source.read(&mut buffer)?;
        if count == 0 {
            return Ok(reader.end()?);
        }
        feed_script(&mut reader, room, &buffer[..count])?;
        room -= count;
    }
}
