//! That one worker's answers are functions of the words and the input.

ghost use Rattle.std.specs.Prelude.{◌≡◌, ℕ, Option, Some, List};
ghost use Rattle.book_rules.specs.declared.event.Event.{Event as AnEvent};
ghost use Rattle.vsa_top.specs.Alone.{IsOneReply, TellsAnalysis, WorksAlone};
ghost use Rattle.vsa_top.specs.Answer.{Answers};
ghost use Rattle.vsa_top.specs.Input.{input_of};
ghost use Rattle.vsa_top.specs.declared.outcome.Status.{Status as AStatus};
ghost use Rattle.vsa_words.specs.declared.reading.Reading.{Reading as AReading};

use crate::laws::families_have_laws;
use ihex_read::image_or_fault;

/// An input that is told denotes one image, and one worker's journal over it is one alone. So where that tells an analysis
/// there is one reply.
pub(crate) fn replies_are_one()
    ensures { (reading : AReading) (answered : AStatus) (input before after : Option (List ℕ)) (journal : List AnEvent) (text : List ℕ)
        → WorksAlone reading → Answers reading answered input before after journal → TellsAnalysis answered
        → input_of reading input ≡ Some text → IsOneReply reading (Some text) answered before after journal }
{
    image_or_fault();
    families_have_laws();
}
