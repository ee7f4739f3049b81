//! What one worker's journals have in common.

ghost use Rattle.std.specs.Prelude.{◌≡◌, List};
ghost use Rattle.book_rules.specs.declared.event.Event.{Event as AnEvent};
ghost use Rattle.worker_rounds.specs.Turns.{FinishesAlone};

use book_rules::first_is_one;
use chip_analysis::Chip;

/// An analysis has one journal of turns that finishes its book, so whatever one worker's journal leads to is a function of
/// the program and its options.
pub fn turns_are_one<C: Chip>()
    ensures { (base : C.Base) (one other : List AnEvent) → FinishesAlone (C.analysis base) one
        → FinishesAlone (C.analysis base) other → one ≡ other }
{
    first_is_one::<C>();
}
