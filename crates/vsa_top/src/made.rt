//! The reply to what words ask, of an input or of a made program.

ghost use Rattle.std.specs.Prelude.{◌≡◌, ◌≢◌, ◌≤◌, ℕ, IfOk, IfErr, OnOk, Some};
ghost use Rattle.image.specs.Kept.{IsRamRange};
ghost use Rattle.image.specs.declared.chip_name.ChipName.{ChipName as AChip};
ghost use Rattle.image_gen.specs.Made.{made_image};
ghost use Rattle.vsa_top.specs.Answer.{IsReply, TellsNoFault};
ghost use Rattle.vsa_top.specs.Faults.{TellsFaults};
ghost use Rattle.vsa_top.specs.Input.{input_of};
ghost use Rattle.vsa_words.specs.Words.{IsBounded, rules_of};
ghost use Rattle.vsa_words.specs.declared.reading.Reading.TheVariants.{Gen};

use crate::reply::{NoReply, Reply, input_reply};
use image::ChipName;
use image_gen::{MOST, make};
use std::alloc::Global;
use std::sync::Wait;
use std::thread::Threads;
use streams::Source;
use vsa_io::CleanSource;
use vsa_words::Reading;
use worker_rounds::Gate;

/// The reply to a made program of so many functions.
fn made_reply<R: Threads + Wait + Sync, G: Gate + Sync>(
    rt: &R,
    alloc: Global,
    chip: ChipName,
    number: u32,
    gate: &G,
) -> Result<Reply, NoReply>
    requires least { 1 ≤ number }
    requires most { number ≤ MOST }
    ensures reply { IfOk result (λ reply. IsReply (Gen chip number) (Some (made_image chip number)) reply.status reply.text reply.journal.items) }
    ensures unread { IfErr result (λ error. error ≢ NoReply.ReadFault) }
{
    let text = make(alloc, chip, number)?;
    let mut source = CleanSource::new(text, 4096);
    input_reply(rt, alloc, Reading::Gen { chip, number }, &mut source, gate)
}

/// The reply to words that are a reading. For a made program nothing is read.
pub fn reply_to<R: Threads + Wait + Sync, S: Source, G: Gate + Sync>(
    rt: &R,
    alloc: Global,
    reading: Reading,
    source: &mut S,
    gate: &G,
) -> Result<Reply, NoReply>
    requires range { IsRamRange (rules_of reading) }
    requires bounded { IsBounded reading }
    ensures no_fault { IfOk result (λ reply. TellsNoFault reply.status) }
    ensures reply { IfOk result (λ reply. IsReply reading (input_of reading (S.left source.old)) reply.status reply.text reply.journal.items) }
    ensures faults { TellsFaults NoReply.ReadFault (S.faults source.old) (S.faults source.new) result }
    ensures unread { (chip : AChip) (number : ℕ) → reading ≡ Gen chip number → source.new ≡ source.old }
{
    match reading {
        Reading::Gen { chip, number } => made_reply(rt, alloc, chip, number, gate),
        Reading::Analyse { .. }
        | Reading::Assert { .. }
        | Reading::Check { .. }
        | Reading::Disasm { .. }
        | Reading::Run { .. } => input_reply(rt, alloc, reading, source, gate),
    }
}
