//! The laws of both chips, as functions that do nothing.

ghost use Rattle.std.specs.Prelude.{ℕ, Option, List};
ghost use Rattle.analysis_limits.specs.declared.limits.Limits.{Limits};
ghost use Rattle.report_bytes.specs.Stacks.{HasOneStack};
ghost use Rattle.vsa_top.specs.Laws.{AreOne, AreOneOf, AreTrue, AreTrueOf, IsGiven};
ghost use Rattle.vsa_words.specs.declared.reading.Target.{Target};

use assert_check::unbroken_lists_hold;
use cert_text::{certificates_are_one, certificates_are_tables};
use cert_verdict::{
    closed_tables_have_their_report, closed_verdicts_tell_closed_books,
    own_certificates_are_closed, verdicts_are_one,
};
use chip_law::LawfulChip;
use closing_law::closed_books_cover_runs;
use mcs51_flow::{Mcs51Chip, stacks_grow_by_bytes};
use msp430_flow::{Msp430Chip, stacks_grow_by_words};
use report_bytes::closed_books_are_told;
use report_text::{
    closed_reports_bound_stacks, closed_reports_cover_runs, closed_works_cover_runs,
    open_reports_show_sites,
};
use state_text::LawfulText;
use worker_rounds::turns_are_one;

/// What the answers need of a chip, whatever its program's instructions are called.
fn chips_have_laws<C: LawfulChip + LawfulText>()
    ensures truths { (base : C.Base) (text_of : ℕ → List ℕ → List ℕ) → C.program base → HasOneStack (C.analysis base)
        → AreTrue (C.machine base) (C.analysis base) (C.texts base) text_of }
    ensures one { (base : C.Base) (text_of : ℕ → List ℕ → List ℕ)
        → AreOne (C.analysis base) (C.texts base) text_of }
{
    closed_reports_cover_runs::<C>();
    closed_reports_bound_stacks::<C>();
    open_reports_show_sites::<C>();
    closed_books_cover_runs::<C>();
    unbroken_lists_hold::<C>();
    closed_verdicts_tell_closed_books::<C>();
    closed_works_cover_runs::<C>();
    certificates_are_tables::<C>();
    closed_tables_have_their_report::<C>();
    own_certificates_are_closed::<C>();
    closed_books_are_told::<C>();
    turns_are_one::<C>();
    certificates_are_one::<C>();
    verdicts_are_one::<C>();
}

/// What the answers need of either chip.
pub(crate) fn families_have_laws()
    ensures truths { (target : Target) (limits : Limits) (image : List (Option ℕ))
        → IsGiven target limits image → AreTrueOf target limits image }
    ensures one { (target : Target) (limits : Limits) (image : List (Option ℕ)) → AreOneOf target limits image }
{
    chips_have_laws::<Msp430Chip>();
    chips_have_laws::<Mcs51Chip>();
    stacks_grow_by_words();
    stacks_grow_by_bytes();
}
