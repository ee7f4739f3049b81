//! What is answered to a certificate.

ghost use Rattle.std.specs.Prelude.{◌≡◌, ◌≢◌, [], IfOk, IfErr, OnOk};
ghost use Rattle.vsa_top.specs.Answer as answers;
ghost use Rattle.vsa_top.specs.Answer.{IsChecked};
ghost use Rattle.vsa_top.specs.Faults.{TellsFaults};
ghost use Rattle.vsa_top.specs.Input.{begun_with};

use crate::outcome::Status;
use crate::reply::{NoReply, Reply, text_reply};
use crate::second::{SecondError, second_in};
use cert_verdict::verdict_on;
use item_lines::InstrText;
use state_text::LawfulText;
use std::alloc::Global;
use streams::Source;

/// The status of a verdict.
fn status_of_verdict(is_closed: bool) -> Status
    ensures { result ≡ answers.status_of_verdict is_closed }
{
    if is_closed {
        Status::Done
    } else {
        Status::BadCert
    }
}

/// The verdict on what stands behind an image text, of which so much was read, as a certificate of a chip's program.
pub fn verdict_reply<S: Source, C: LawfulText + InstrText>(
    alloc: Global,
    chip: &C,
    begun: &[u8],
    source: &mut S,
) -> Result<Reply, NoReply>
    ensures reply { (let b = C.base chip.now in IfOk result (λ reply.
        IsChecked (C.text_of chip.now) (C.analysis b) (C.texts b) (begun_with begun.now (S.left source.old)) reply.status reply.text)) }
    ensures journal { IfOk result (λ reply. reply.journal.items ≡ []) }
    ensures faults { TellsFaults NoReply.ReadFault (S.faults source.old) (S.faults source.new) result }
{
    match second_in(alloc, source, begun) {
        Ok(text) => {
            let verdict = verdict_on(alloc, chip, text.as_slice())?;
            Ok(text_reply(alloc, status_of_verdict(verdict.is_closed), verdict.text))
        }
        Err(SecondError::TooLong) => {
            let text = Vec::from_slice(alloc, b"LONG\n")?;
            Ok(text_reply(alloc, Status::TooLong, text))
        }
        Err(SecondError::Failed) => Err(NoReply::ReadFault),
        Err(SecondError::Memory) => Err(NoReply::Memory),
    }
}
