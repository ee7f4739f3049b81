//! That the certificate which an analysis writes behind its report passes its check.

ghost use Rattle.std.specs.Prelude.{◌≡◌, ◌≤◌, ℕ, Option, Some, List, length, true, ◌⊎◌};
ghost use Rattle.image.specs.Kept.{IsRamRange};
ghost use Rattle.image.specs.declared.tail.Tail.TheVariants.{Second};
ghost use Rattle.book_rules.specs.declared.event.Event.{Event as AnEvent};
ghost use Rattle.vsa_top.specs.Answer.{Answers};
ghost use Rattle.vsa_top.specs.Input.{Gives};
ghost use Rattle.vsa_top.specs.Own.{IsOwn, TellsReport, WritesOwn};
ghost use Rattle.vsa_top.specs.Scripts.{second_limit};
ghost use Rattle.vsa_words.specs.Words.{EndsInMemory, IsBounded, rules_of};
ghost use Rattle.vsa_top.specs.declared.outcome.Status.TheVariants.{Done, Memory, ReadFault, WriteFault};
ghost use Rattle.vsa_top.specs.declared.outcome.Status.{Status as AStatus};
ghost use Rattle.vsa_words.specs.declared.reading.Reading.TheVariants.{Analyse, Check};
ghost use Rattle.vsa_words.specs.declared.reading.Task.{Task as ATask};

use crate::headline::reports_hold;
use crate::laws::families_have_laws;
use ihex_read::{image_or_fault, images_keep_rules};

/// What an analysis writes with a certificate and Done is a report that covers every run, and its own certificate behind it. Where a report's own
/// certificate is checked, and isn't longer than a second text may be, the answer is this report with Done, unless something
/// fails or memory isn't there.
pub(crate) fn own_certificates_pass()
    ensures written { (task : ATask) (input before after : Option (List ℕ)) (journal : List AnEvent)
        → IsRamRange (rules_of (Analyse task)) → EndsInMemory (rules_of (Analyse task)) → IsBounded (Analyse task)
        → task.cert ≡ true → Answers (Analyse task) Done input before after journal
        → WritesOwn task input before after }
    ensures accepted { (task : ATask) (answered : AStatus) (input before after : Option (List ℕ))
        (journal : List AnEvent) (text report certificate : List ℕ) (image : List (Option ℕ))
        → IsRamRange (rules_of (Check task)) → EndsInMemory (rules_of (Check task))
        → IsBounded (Check task) → Answers (Check task) answered input before after journal
        → input ≡ Some text → Gives (rules_of (Check task)) Second text image certificate
        → IsOwn task.target task.limits image report certificate
        → length certificate ≤ second_limit → ¬ (answered ≡ ReadFault) → ¬ (answered ≡ WriteFault)
        → TellsReport answered before after report ⊎ (answered ≡ Memory) }
{
    reports_hold();
    image_or_fault();
    images_keep_rules();
    families_have_laws();
}
