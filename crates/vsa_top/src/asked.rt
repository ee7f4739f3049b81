//! What the words ask of a program, whichever chip it is of.

ghost use Rattle.std.specs.Prelude.{◌≤◌, IfOk};
ghost use Rattle.image.specs.Kept.{IsRamRange, IsReadUnder};
ghost use Rattle.vsa_top.specs.Answer.{IsAskedOn, IsOfProgram, IsProgramReply};
ghost use Rattle.vsa_top.specs.Faults.{TellsFaults};
ghost use Rattle.vsa_top.specs.Input.{begun_with};
ghost use Rattle.vsa_words.specs.Words.{target_rules};

use crate::asserting::assertion_reply;
use crate::checking::verdict_reply;
use crate::reply::{NoReply, Reply, chip_reply};
use crate::summary::chip_summary;
use chip_law::LawfulChip;
use image::Image;
use item_lines::InstrText;
use mcs51_flow::Mcs51Chip;
use msp430_flow::Msp430Chip;
use state_text::LawfulText;
use std::alloc::Global;
use std::sync::Wait;
use std::thread::Threads;
use streams::Source;
use vsa_words::{Reading, Target, Task};
use worker_rounds::Gate;

/// What the words ask of a chip's program, behind whose image text so much was read.
fn asked<
    R: Threads + Wait + Sync,
    S: Source,
    C: LawfulChip<Base: Send> + LawfulText + InstrText + Send + Sync,
    G: Gate + Sync,
>(
    rt: &R,
    alloc: Global,
    chip: &C,
    reading: Reading,
    begun: &[u8],
    source: &mut S,
    gate: &G,
) -> Result<Reply, NoReply>
    requires { IsOfProgram reading }
    ensures reply { (let b = C.base chip.now in IfOk result (λ reply. IsProgramReply (C.text_of chip.now) (C.analysis b) (C.texts b)
        reading (begun_with begun.now (S.left source.old)) reply.status reply.text reply.journal.items)) }
    ensures faults { TellsFaults NoReply.ReadFault (S.faults source.old) (S.faults source.new) result }
{
    match reading {
        Reading::Analyse { task } => {
            Ok(chip_reply(rt, alloc, chip, task.workers, task.cert, gate)?)
        }
        Reading::Assert { task } => assertion_reply(rt, alloc, chip, task, begun, source, gate),
        Reading::Check { .. } => verdict_reply(alloc, chip, begun, source),
        Reading::Gen { chip: name, number } => Ok(chip_summary(alloc, chip, name, number, gate)?),
        Reading::Disasm { .. } | Reading::Run { .. } => unreachable!(),
    }
}

/// What the words ask of a program, of the chip and under the limits of a task.
pub fn asked_of<R: Threads + Wait + Sync, S: Source, G: Gate + Sync>(
    rt: &R,
    alloc: Global,
    reading: Reading,
    task: Task,
    image: Image,
    begun: &[u8],
    source: &mut S,
    gate: &G,
) -> Result<Reply, NoReply>
    requires question { IsOfProgram reading }
    requires ram { IsRamRange (target_rules task.target) }
    requires read { IsReadUnder (target_rules task.target) image }
    requires calls { task.limits.calls ≤ 8 }
    ensures reply { IfOk result (λ reply. IsAskedOn task.target task.limits image reading
        (begun_with begun.now (S.left source.old)) reply.status reply.text reply.journal.items) }
    ensures faults { TellsFaults NoReply.ReadFault (S.faults source.old) (S.faults source.new) result }
{
    match task.target {
        Target::Msp430 { ram } => {
            let chip = Msp430Chip::new(alloc, image, ram, task.limits)?;
            asked(rt, alloc, &chip, reading, begun, source, gate)
        }
        Target::Mcs51 => {
            let chip = Mcs51Chip::new(alloc, image, task.limits)?;
            asked(rt, alloc, &chip, reading, begun, source, gate)
        }
    }
}
