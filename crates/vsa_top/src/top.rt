//! The top call.

ghost use Rattle.std.specs.Prelude.{◌≡◌, ◌≢◌, [], ◌≤◌, ℕ, List, Option, Some, true, length, ◌⊎◌, ◌↔◌};
ghost use Rattle.streams.specs.Stream.{HasRisen, AppendsPrefix, appended};
ghost use Rattle.image.specs.declared.tail.Tail.TheVariants.{Second};
ghost use Rattle.image.specs.Kept.{IsRamRange};
ghost use Rattle.vsa_top.specs.Certified.{IsClosedCertOf};
ghost use Rattle.vsa_top.specs.Headline.{BoundsStackOf, CertifiesOn, CoversRunsOf, HoldsOf, LeavesOpen, ReportsOn, ShowsSitesOf};
ghost use Rattle.image.specs.declared.chip_name.ChipName.{ChipName as AChip};
ghost use Rattle.vsa_words.specs.declared.reading.Reading.TheVariants.{Analyse, Assert, Check, Gen};
ghost use Rattle.vsa_words.specs.declared.reading.Reading.{Reading as AReading};
ghost use Rattle.vsa_words.specs.declared.reading.Task.{Task as ATask};
ghost use Rattle.vsa_top.specs.Alone.{IsOneReply, TellsAnalysis, WorksAlone};
ghost use Rattle.vsa_top.specs.Answer.{Analyses, Answers, AreRefused, Ends, IsCutShort, IsVerdictOn, IsWritten};
ghost use Rattle.vsa_top.specs.Input.{Gives, input_of};
ghost use Rattle.vsa_top.specs.Own.{IsOwn, TellsReport, WritesOwn};
ghost use Rattle.vsa_top.specs.Scripts.{second_limit};
ghost use Rattle.vsa_words.specs.Words.{IsBounded, Reads, rules_of, tail_of};

use crate::alone::replies_are_one;
use crate::headline::reports_hold;
use crate::made::reply_to;
use crate::outcome::{Outcome, Status};
use crate::own::own_certificates_pass;
use crate::reply::{NoReply, Reply};
use dense_text::Text;
use round_core::Event;
use std::alloc::Global;
use std::sync::Wait;
use std::thread::Threads;
use streams::{Sink, Source, write_all};
use vsa_words::{Reading, reading_of};
use worker_rounds::Gate;

/// Writes a text, and answers the status that goes with it, or the fault of the sink.
fn written<K: Sink>(sink: &mut K, text: &[u8], status: Status, journal: Vec<Event>) -> Outcome
    requires { status ≢ Status.WriteFault }
    ensures written { IsWritten status text.now result.status (K.held sink.old) (K.held sink.new) }
    ensures journal { result.journal.items ≡ journal.items }
    ensures told { (result.status ≡ status) ⊎ (result.status ≡ Status.WriteFault) }
    ensures quiet { result.status ≡ status → K.faults sink.new ≡ K.faults sink.old }
    ensures cause { result.status ≡ Status.WriteFault → HasRisen (K.faults sink.old) (K.faults sink.new) }
{
    let status = match write_all(sink, text) {
        Ok(()) => status,
        Err(_) => Status::WriteFault,
    };
    Outcome { status, journal }
}

/// Writes the text of a reply, and answers the status that goes with it, or the fault of the sink.
fn reply_written<K: Sink>(sink: &mut K, text: &Text, status: Status, journal: Vec<Event>) -> Outcome
    requires { status ≢ Status.WriteFault }
    ensures written { IsWritten status text.now result.status (K.held sink.old) (K.held sink.new) }
    ensures journal { result.journal.items ≡ journal.items }
    ensures told { (result.status ≡ status) ⊎ (result.status ≡ Status.WriteFault) }
    ensures quiet { result.status ≡ status → K.faults sink.new ≡ K.faults sink.old }
    ensures cause { result.status ≡ Status.WriteFault → HasRisen (K.faults sink.old) (K.faults sink.new) }
{
    let status = match text.write_to(sink) {
        Ok(()) => status,
        Err(_) => Status::WriteFault,
    };
    Outcome { status, journal }
}

/// Answers what the words ask of an input, which is read, or of a made program.
fn answer<R: Threads + Wait + Sync, S: Source, K: Sink, G: Gate + Sync>(
    rt: &R,
    alloc: Global,
    reading: Reading,
    source: &mut S,
    sink: &mut K,
    gate: &G,
) -> Outcome
    requires range { IsRamRange (rules_of reading) }
    requires bounded { IsBounded reading }
    ensures answer { Answers reading result.status (S.left source.old) (K.held sink.old) (K.held sink.new) result.journal.items }
    ensures read_fault { result.status ≡ Status.ReadFault → HasRisen (S.faults source.old) (S.faults source.new) }
    ensures write_fault { result.status ≡ Status.WriteFault → HasRisen (K.faults sink.old) (K.faults sink.new) }
    ensures quiet_source { ¬ IsCutShort result.status → S.faults source.new ≡ S.faults source.old }
    ensures quiet_sink { ¬ IsCutShort result.status → K.faults sink.new ≡ K.faults sink.old }
    ensures unread { (chip : AChip) (number : ℕ) → reading ≡ Gen chip number → source.new ≡ source.old }
{
    let status = match reply_to(rt, alloc, reading, source, gate) {
        Ok(
            Reply {
                status,
                text,
                journal,
            },
        ) => return reply_written(sink, &text, status, journal),
        Err(NoReply::ReadFault) => Status::ReadFault,
        Err(NoReply::Memory) => Status::Memory,
    };
    Outcome {
        status,
        journal: Vec::new(alloc),
    }
}

/// Does what the words ask: reads the source, and writes the answer to the sink.
pub fn vsa<R: Threads + Wait + Sync, S: Source, K: Sink, G: Gate + Sync>(
    rt: &R,
    alloc: Global,
    words: &[String],
    source: &mut S,
    sink: &mut K,
    gate: &G,
) -> Outcome
    // THE HEADLINE. Where the words ask an analysis, the input denotes an image under their rules and the status is Done,
    // which tells a report that says CLOSED, whatever the chip meets on any run has its line in the report, and no run
    // leaves the model. Behind the report stands nothing, or the certificate that was asked for: that of the book that the
    // journal leads to.
    ensures headline { (task : ATask) → Reads words.now (Analyse task) → result.status ≡ Status.Done
        → ReportsOn task (S.left source.old) (K.held sink.old) (K.held sink.new) result.journal.items (CoversRunsOf task.target) }
    // There the `T` line names the deepest stack pointer that the `S` lines tell, and no run's is deeper in front of any step, but
    // where the `S` line is one that it counts, which tells all numbers: so the stack can be sized by it.
    ensures stack { (task : ATask) → Reads words.now (Analyse task) → result.status ≡ Status.Done
        → ReportsOn task (S.left source.old) (K.held sink.old) (K.held sink.new) result.journal.items (BoundsStackOf task.target) }
    // Where the words ask an analysis and the status is Open, the report says OPEN and shows each open site, of which there
    // is one: the address of a location of the book at which, by its state, the limit that its cause names is broken.
    ensures open_sites { (task : ATask) → Reads words.now (Analyse task) → result.status ≡ Status.Open
        → ReportsOn task (S.left source.old) (K.held sink.old) (K.held sink.new) result.journal.items
        (λ image report. ShowsSitesOf task.target task.limits image result.journal.items report) }
    // Where the words ask an analysis under assertions and the status is Open, the report that was written in place of what they
    // break shows each open site too.
    ensures left_open { (task : ATask) → Reads words.now (Assert task) → result.status ≡ Status.Open
        → LeavesOpen task (S.left source.old) (K.held sink.old) (K.held sink.new) result.journal.items }
    // Where the words ask an analysis under assertions and the status is Done, which tells HOLDS, the assertions that stand
    // behind the input's image text hold: nothing that the chip meets on any run breaks one, and no run leaves the model.
    ensures assertions { (task : ATask) → Reads words.now (Assert task) → result.status ≡ Status.Done
        → HoldsOf task.target (S.left source.old) }
    // Where the words ask the check of a certificate and the status is Done, the text behind the input's image text is the
    // certificate of a closed table, and the report that was written covers every run of the chip with this image, whoever
    // made the certificate.
    ensures certified { (task : ATask) → Reads words.now (Check task) → result.status ≡ Status.Done
        → CertifiesOn task (S.left source.old) (K.held sink.old) (K.held sink.new) }
    // Where the words ask an analysis with a certificate, the input denotes an image and the status is Done, what was written is
    // a report with its own certificate behind it: the report of a closed book, of which the same holds as in the headline, and
    // the certificate of that book's table.
    ensures own { (task : ATask) → Reads words.now (Analyse task) → task.cert ≡ true
        → result.status ≡ Status.Done
        → WritesOwn task (S.left source.old) (K.held sink.old) (K.held sink.new) }
    // Open is the status of an analysis alone: that of the input's image, with or without assertions, or that of a made
    // program.
    ensures open_alone { (reading : AReading) → Reads words.now reading → result.status ≡ Status.Open
        → Analyses reading }

    // Words that aren't a reading are refused, or memory isn't there to tell; no others are.
    ensures usage { ((reading : AReading) → ¬ Reads words.now reading)
        → AreRefused result.status (K.held sink.old) (K.held sink.new) }
    ensures usage_journal { ((reading : AReading) → ¬ Reads words.now reading) → result.journal.items ≡ [] }
    // The bytes are exactly the report of the book that the journal leads to, with the certificate of its table behind it
    // where the words ask for that, or exactly what it breaks of the assertions, or
    // exactly the report of the certificate's table where that is closed, or exactly the disassembly of the image, or exactly
    // the trace of the run along the script, or tell the first faulty line of the input, the first refused line of the second
    // text or the first refusal of the certificate's table, or that one of them is too long. For a made program they are
    // exactly the summary of the report of the book that the journal leads to.
    ensures answer { (reading : AReading) → Reads words.now reading
        → Answers reading result.status (S.left source.old) (K.held sink.old) (K.held sink.new) result.journal.items }

    // An input that gives an image within the limit gets its report, what it breaks, its disassembly, its run, the report of
    // its certificate's table, or what is refused of its second text, and a made program's text that does gets its summary, where no count of faults rose, or Memory.
    ensures complete { (reading : AReading) (text : List ℕ) (image : List (Option ℕ)) (second : List ℕ) → Reads words.now reading
        → input_of reading (S.left source.old) ≡ Some text → Gives (rules_of reading) (tail_of reading) text image second
        → ¬ HasRisen (S.faults source.old) (S.faults source.new) → ¬ HasRisen (K.faults sink.old) (K.faults sink.new)
        → Ends reading result.status ⊎ (result.status ≡ Status.Memory) }

    // Where an input gives an image and a text behind it that isn't too long, Done is told exactly where this text is the
    // certificate of a closed table of the chip with this image under these limits, where no count of faults rose, or Memory.
    ensures exact { (task : ATask) (text certificate : List ℕ) (image : List (Option ℕ)) → Reads words.now (Check task)
        → S.left source.old ≡ Some text → Gives (rules_of (Check task)) Second text image certificate
        → length certificate ≤ second_limit
        → ¬ HasRisen (S.faults source.old) (S.faults source.new) → ¬ HasRisen (K.faults sink.old) (K.faults sink.new)
        → ((result.status ≡ Status.Done) ↔ IsClosedCertOf task.target task.limits image certificate)
        ⊎ (result.status ≡ Status.Memory) }

    // Where an input gives an image and a text behind it, the answer is the verdict on this text as a certificate, where no
    // count of faults rose, or Memory: Done with the report of its closed table, or why it is refused, or that it is too long.
    ensures verdict { (task : ATask) (text certificate : List ℕ) (image : List (Option ℕ)) → Reads words.now (Check task)
        → S.left source.old ≡ Some text → Gives (rules_of (Check task)) Second text image certificate
        → ¬ HasRisen (S.faults source.old) (S.faults source.new) → ¬ HasRisen (K.faults sink.old) (K.faults sink.new)
        → IsVerdictOn task image certificate result.status (K.held sink.old) (K.held sink.new) ⊎ (result.status ≡ Status.Memory) }

    // Where an input gives an image and behind it a report's own certificate, as an analysis of this image under these limits
    // writes it, the answer is Done with this very report, where no count of faults rose, or Memory.
    ensures accepted { (task : ATask) (text report certificate : List ℕ) (image : List (Option ℕ))
        → Reads words.now (Check task) → S.left source.old ≡ Some text
        → Gives (rules_of (Check task)) Second text image certificate
        → IsOwn task.target task.limits image report certificate
        → length certificate ≤ second_limit
        → ¬ HasRisen (S.faults source.old) (S.faults source.new)
        → ¬ HasRisen (K.faults sink.old) (K.faults sink.new)
        → TellsReport result.status (K.held sink.old) (K.held sink.new) report
        ⊎ (result.status ≡ Status.Memory) }

    // Each made program's text gives an image, so its summary is told, or Memory.
    ensures made { (chip : AChip) (number : ℕ) → Reads words.now (Gen chip number)
        → ¬ HasRisen (S.faults source.old) (S.faults source.new) → ¬ HasRisen (K.faults sink.old) (K.faults sink.new)
        → Ends (Gen chip number) result.status ⊎ (result.status ≡ Status.Memory) }

    // For a made program nothing is read: the source is as it was.
    ensures unread { (chip : AChip) (number : ℕ) → Reads words.now (Gen chip number) → source.new ≡ source.old }

    // What one worker tells of an analysis, with or without assertions, and what is told of a made program, is a function of the words and the input: the
    // reply that is given is the only one of an analysis.
    ensures one_reply { (reading : AReading) (text : List ℕ) → Reads words.now reading → WorksAlone reading
        → TellsAnalysis result.status → input_of reading (S.left source.old) ≡ Some text
        → IsOneReply reading (Some text) result.status (K.held sink.old) (K.held sink.new) result.journal.items }

    // A fault is told only where its count rose, and a status that tells none is given only where none did.
    ensures read_fault { result.status ≡ Status.ReadFault → HasRisen (S.faults source.old) (S.faults source.new) }
    ensures write_fault { result.status ≡ Status.WriteFault → HasRisen (K.faults sink.old) (K.faults sink.new) }
    ensures quiet_source { ¬ IsCutShort result.status → S.faults source.new ≡ S.faults source.old }
    ensures quiet_sink { ¬ IsCutShort result.status → K.faults sink.new ≡ K.faults sink.old }
{
    match reading_of(alloc, words) {
        Ok(Some(reading)) => {
            reports_hold();
            replies_are_one();
            own_certificates_pass();
            answer(rt, alloc, reading, source, sink, gate)
        }
        Ok(None) => written(sink, b"USAGE\n", Status::Usage, Vec::new(alloc)),
        Err(_) => Outcome {
            status: Status::Memory,
            journal: Vec::new(alloc),
        },
    }
}
