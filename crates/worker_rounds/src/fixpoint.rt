//! The analysis on one thread.

ghost use Rattle.std.specs.Prelude.{◌≡◌, [], true, false, IfOk};
ghost use Rattle.book_rules.specs.Kept.{with_event};
ghost use Rattle.book_rules.specs.Machine.{replay, IsFirst, IsFinished, IsLegalJournal};
ghost use Rattle.book_rules.specs.declared.event.Event.TheVariants.{Claim, Post};
ghost use Rattle.worker_rounds.specs.Turns.{AreTurns};
ghost use Rattle.call_context.specs.declared.node.Unit.{Unit as AUnit};

use crate::gate::{Gate, NoGate};
use book_rules::turns_bring_home;
use chip_analysis::Chip;
use no_memory::Memory;
use round_core::{Book, Claimed, Done};
use std::alloc::Global;

/// Tells of the work that was posted last, and how large the book is by now.
fn tell<C: Chip, G: Gate>(gate: &G, book: &Book<C>) {
    gate.after(0);
    gate.told(book.nodes().len(), book.candidates());
}

/// Claims a unit, works on it and posts the work. True says that the book is finished, and nothing was done.
fn turn<C: Chip, G: Gate>(
    alloc: Global,
    chip: &C,
    gate: &G,
    book: &mut Book<C>,
) -> Result<bool, Memory>
    requires chip { C.base chip.now ≡ book.old.base }
    requires none_out { (replay (C.analysis book.old.base) book.old.journal).out ≡ [] }
    ensures finished { IfOk result (λ finished. finished ≡ true → (book.new ≡ book.old) × IsFinished (replay (C.analysis book.old.base) book.old.journal)) }
    ensures turned { IfOk result (λ finished. finished ≡ false → (unit : AUnit)
        × IsFirst (replay (C.analysis book.old.base) book.old.journal) unit
        × (book.new ≡ with_event (with_event book.old (Claim 0 unit)) (Post 0 unit))) }
{
    match book.claim(chip, 0)? {
        Claimed::Ticket(ticket) => {
            gate.before(0);
            let work = chip.work(alloc, ticket.unit(), ticket.at(), ticket.exit())?;
            match book.post(chip, Done { ticket, work }) {
                Ok(()) => {
                    tell(gate, book);
                    Ok(false)
                }
                Err((memory, _)) => Err(memory),
            }
        }
        Claimed::Idle | Claimed::Finished => Ok(true),
    }
}

/// Claims, works and posts until the book is finished.
pub fn fixpoint_alone<C: Chip>(alloc: Global, chip: &C) -> Result<Book<C>, Memory>
    ensures base { IfOk result (λ book. book.base ≡ C.base chip.now) }
    ensures legal { IfOk result (λ book. IsLegalJournal (C.analysis book.base) book.journal) }
    ensures finished { IfOk result (λ book. IsFinished (replay (C.analysis book.base) book.journal)) }
    ensures turns { IfOk result (λ book. AreTurns book.journal) }
{
    watched_fixpoint(alloc, chip, &NoGate)
}

/// The same, with a gate that is told of each turn. Nothing depends on it.
pub fn watched_fixpoint<C: Chip, G: Gate>(
    alloc: Global,
    chip: &C,
    gate: &G,
) -> Result<Book<C>, Memory>
    ensures base { IfOk result (λ book. book.base ≡ C.base chip.now) }
    ensures legal { IfOk result (λ book. IsLegalJournal (C.analysis book.base) book.journal) }
    ensures finished { IfOk result (λ book. IsFinished (replay (C.analysis book.base) book.journal)) }
    ensures turns { IfOk result (λ book. AreTurns book.journal) }
{
    turns_bring_home::<C>();
    let mut book = Book::open(alloc, chip)?;
    for _ in 0..u64::MAX {
        if turn(alloc, chip, gate, &mut book)? {
            // The journal of a book is legal by itself.
            book.journal();
            return Ok(book);
        }
    }
    // A journal never gets as long as this.
    Err(Memory)
}
