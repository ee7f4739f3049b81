//! The windows in which a register stands where a jump is taken, or isn't.

ghost use Rattle.std.specs.Prelude.{◌≡◌, ◌≤◌, ◌<◌, IfSome, Some};
ghost use Rattle.msp430_chip.specs.Arithmetic as chip;
ghost use Rattle.msp430_branch.specs.Cuts as cuts;

use crate::window::Window;
use msp430_decode::{Condition, Width};
use msp430_state::FlagFact;

/// How many numbers there are.
fn modulus(width: Width) -> u32
    ensures { result ≡ chip.modulus width }
{
    match width {
        Width::Word => 65536,
        Width::Byte => 256,
    }
}

/// The window that begins where the register, plus what is added to it, is a number.
fn window(fact: &FlagFact, number: u32, len: u32) -> Window
    requires number { number ≤ 65536 }
    ensures { result ≡ record { low = cuts.value_for fact.now number; len = len } }
{
    let modulus = modulus(fact.width);
    let low = (number + modulus).saturating_sub(fact.added as u32) % modulus;
    Window {
        low: low as u16,
        len,
    }
}

/// How many signed numbers are less than the one that is compared.
fn lesser_count(fact: &FlagFact) -> u32
    ensures { result ≡ cuts.lesser_count fact.now }
{
    let modulus = modulus(fact.width);
    (fact.compared as u32 + modulus / 2) % modulus
}

fn equal_window(fact: &FlagFact) -> Window
    ensures { result ≡ cuts.equal_window fact.now }
{
    window(fact, fact.compared as u32, 1)
}

fn other_window(fact: &FlagFact) -> Window
    ensures { result ≡ cuts.other_window fact.now }
{
    window(fact, fact.compared as u32 + 1, modulus(fact.width) - 1)
}

fn upper_window(fact: &FlagFact) -> Window
    ensures { result ≡ cuts.upper_window fact.now }
{
    let compared = fact.compared as u32;
    window(fact, compared, modulus(fact.width).saturating_sub(compared))
}

fn lower_window(fact: &FlagFact) -> Window
    ensures { result ≡ cuts.lower_window fact.now }
{
    window(fact, 0, fact.compared as u32)
}

fn greater_window(fact: &FlagFact) -> Window
    ensures { result ≡ cuts.greater_window fact.now }
{
    window(
        fact,
        fact.compared as u32,
        modulus(fact.width) - lesser_count(fact),
    )
}

fn less_window(fact: &FlagFact) -> Window
    ensures { result ≡ cuts.less_window fact.now }
{
    window(fact, modulus(fact.width) / 2, lesser_count(fact))
}

/// The values of the fact's register where a jump is taken, or isn't. N alone tells none.
pub(crate) fn window_of(condition: Condition, taken: bool, fact: &FlagFact) -> Option<Window>
    ensures value { result ≡ cuts.window_of condition taken fact.now }
    ensures low { IfSome result (λ window. window.low < chip.modulus fact.now.width) }
{
    match (condition, taken) {
        (Condition::Equal, true) | (Condition::NotEqual, false) => Some(equal_window(fact)),
        (Condition::NotEqual, true) | (Condition::Equal, false) => Some(other_window(fact)),
        (Condition::Carry, true) | (Condition::NoCarry, false) => Some(upper_window(fact)),
        (Condition::NoCarry, true) | (Condition::Carry, false) => Some(lower_window(fact)),
        (Condition::GreaterOrEqual, true) | (Condition::Less, false) => Some(greater_window(fact)),
        (Condition::Less, true) | (Condition::GreaterOrEqual, false) => Some(less_window(fact)),
        (Condition::Negative | Condition::Always, _) => None,
    }
}
