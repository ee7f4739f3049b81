//! What an answer says of every run.

ghost use Rattle.std.specs.Prelude.{◌≡◌, ◌≤◌, ℕ, Option, Some, List, length, ◌⊎◌, ◌↔◌};
ghost use Rattle.book_rules.specs.declared.event.Event.{Event as AnEvent};
ghost use Rattle.vsa_top.specs.declared.outcome.Status.TheVariants.{Done, Memory, Open, ReadFault, WriteFault};
ghost use Rattle.vsa_top.specs.declared.outcome.Status.{Status as AStatus};
ghost use Rattle.vsa_top.specs.Answer.{Analyses, Answers, Ends, IsVerdictOn};
ghost use Rattle.vsa_top.specs.Input.{Gives, input_of};
ghost use Rattle.vsa_words.specs.Words.{EndsInMemory, IsBounded, rules_of, tail_of};
ghost use Rattle.image.specs.declared.tail.Tail.TheVariants.{Second};
ghost use Rattle.image.specs.Kept.{IsRamRange};
ghost use Rattle.image.specs.declared.chip_name.ChipName.{ChipName as AChip};
ghost use Rattle.vsa_words.specs.declared.reading.Reading.TheVariants.{Analyse, Assert, Check, Gen};
ghost use Rattle.vsa_words.specs.declared.reading.Reading.{Reading as AReading};
ghost use Rattle.vsa_words.specs.declared.reading.Task.{Task as ATask};
ghost use Rattle.vsa_top.specs.Certified.{IsClosedCertOf};
ghost use Rattle.vsa_top.specs.Scripts.{second_limit};
ghost use Rattle.vsa_top.specs.Headline.{BoundsStackOf, CertifiesOn, CoversRunsOf, HoldsOf, LeavesOpen, ReportsOn, ShowsSitesOf};

use crate::laws::families_have_laws;
use ihex_read::{ended_texts_stay, image_or_fault, images_keep_rules};
use made_programs::made_texts_denote;

/// A report that is told as closed covers every run, and its `T` line bounds the stack of each; one that is told as open shows its open sites. Analyses alone are
/// told as open, with or without assertions. Assertions that are told to hold do so on every run, and the report of a
/// certificate that is told as closed covers every run. An image within the limit gets what is asked of it where nothing
/// fails and memory is there, and so does each made program.
pub(crate) fn reports_hold()
    ensures closed { (task : ATask) (input before after : Option (List ℕ)) (journal : List AnEvent)
        → IsRamRange (rules_of (Analyse task)) → EndsInMemory (rules_of (Analyse task)) → IsBounded (Analyse task) → Answers (Analyse task) Done input before after journal →
        ReportsOn task input before after journal (CoversRunsOf task.target) }
    ensures bounded { (task : ATask) (input before after : Option (List ℕ)) (journal : List AnEvent)
        → IsRamRange (rules_of (Analyse task)) → EndsInMemory (rules_of (Analyse task)) → IsBounded (Analyse task)
        → Answers (Analyse task) Done input before after journal
        → ReportsOn task input before after journal (BoundsStackOf task.target) }
    ensures open { (task : ATask) (input before after : Option (List ℕ)) (journal : List AnEvent)
        → IsRamRange (rules_of (Analyse task)) → EndsInMemory (rules_of (Analyse task)) → IsBounded (Analyse task) → Answers (Analyse task) Open input before after journal →
        ReportsOn task input before after journal (λ image report. ShowsSitesOf task.target task.limits image journal report) }
    ensures open_alone { (reading : AReading) (input before after : Option (List ℕ)) (journal : List AnEvent)
        → Answers reading Open input before after journal → Analyses reading }
    ensures asserted { (task : ATask) (input before after : Option (List ℕ)) (journal : List AnEvent)
        → IsRamRange (rules_of (Assert task)) → EndsInMemory (rules_of (Assert task)) → IsBounded (Assert task)
        → Answers (Assert task) Done input before after journal → HoldsOf task.target input }
    ensures left_open { (task : ATask) (input before after : Option (List ℕ)) (journal : List AnEvent)
        → IsRamRange (rules_of (Assert task)) → EndsInMemory (rules_of (Assert task)) → IsBounded (Assert task)
        → Answers (Assert task) Open input before after journal → LeavesOpen task input before after journal }
    ensures certified { (task : ATask) (input before after : Option (List ℕ)) (journal : List AnEvent)
        → IsRamRange (rules_of (Check task)) → EndsInMemory (rules_of (Check task)) → IsBounded (Check task)
        → Answers (Check task) Done input before after journal → CertifiesOn task input before after }
    ensures verdict { (task : ATask) (answered : AStatus) (input before after : Option (List ℕ)) (journal : List AnEvent) (text certificate : List ℕ) (image : List (Option ℕ))
        → Answers (Check task) answered input before after journal → input ≡ Some text → Gives (rules_of (Check task)) Second text image certificate
        → ¬ (answered ≡ ReadFault) → ¬ (answered ≡ WriteFault) → IsVerdictOn task image certificate answered before after ⊎ (answered ≡ Memory) }
    ensures exact { (task : ATask) (answered : AStatus) (input before after : Option (List ℕ)) (journal : List AnEvent)
        (text certificate : List ℕ) (image : List (Option ℕ))
        → IsRamRange (rules_of (Check task)) → EndsInMemory (rules_of (Check task)) → IsBounded (Check task)
        → Answers (Check task) answered input before after journal → input ≡ Some text
        → Gives (rules_of (Check task)) Second text image certificate → length certificate ≤ second_limit
        → ¬ (answered ≡ ReadFault) → ¬ (answered ≡ WriteFault)
        → ((answered ≡ Done) ↔ IsClosedCertOf task.target task.limits image certificate) ⊎ (answered ≡ Memory) }
    ensures complete { (reading : AReading) (answered : AStatus) (input before after : Option (List ℕ)) (journal : List AnEvent) (text : List ℕ) (image : List (Option ℕ)) (second : List ℕ)
        → Answers reading answered input before after journal → input_of reading input ≡ Some text → Gives (rules_of reading) (tail_of reading) text image second
        → ¬ (answered ≡ ReadFault) → ¬ (answered ≡ WriteFault) → Ends reading answered ⊎ (answered ≡ Memory) }
    ensures made { (chip : AChip) (number : ℕ) (answered : AStatus) (input before after : Option (List ℕ)) (journal : List AnEvent) → number ≤ 2000
        → Answers (Gen chip number) answered input before after journal → ¬ (answered ≡ ReadFault) → ¬ (answered ≡ WriteFault)
        → Ends (Gen chip number) answered ⊎ (answered ≡ Memory) }
{
    ended_texts_stay();
    image_or_fault();
    images_keep_rules();
    made_texts_denote();
    families_have_laws();
}
