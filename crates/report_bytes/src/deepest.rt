//! How deep stacks go.

ghost use Rattle.std.specs.Prelude.{◌≡◌, IfSome};
ghost use Rattle.report_bytes.specs.Deepest.{IsGreatest, IsLeast, deeper as the_deeper, deeper_of as the_deeper_of, deepest_in as the_deepest_in, deepest_of as the_deepest_of, greatest_byte, has_all_bytes as all_bytes, has_all_words as all_words, least_word};

use call_context::{Item, Set};
use value_set::{Form, Vs8, Vs16};

/// The stack pointer at which a stack is deepest: the least one of a stack that grows downward by words, or the greatest
/// one of a stack that grows upward by bytes.
#[derive(Clone, Copy, Debug, PartialEq, Eq)]
pub enum Deepest {
    Least(u16),
    Greatest(u8),
}

/// The deeper of two. Of stacks that grow in different directions it is the first one's.
fn deeper(a: Deepest, b: Deepest) -> Deepest
    ensures { result ≡ the_deeper a b }
{
    match (a, b) {
        (Deepest::Least(a), Deepest::Least(b)) => Deepest::Least(a.min(b)),
        (Deepest::Greatest(a), Deepest::Greatest(b)) => Deepest::Greatest(a.max(b)),
        (a, _) => a,
    }
}

/// The deeper of two, where either is there.
fn deeper_of(a: Option<Deepest>, b: Option<Deepest>) -> Option<Deepest>
    ensures { result ≡ the_deeper_of a b }
{
    match (a, b) {
        (Some(a), Some(b)) => Some(deeper(a, b)),
        (None, b) => b,
        (a, None) => a,
    }
}

/// Whether a set has all words, or all even words.
fn has_all_words(values: &Vs16) -> bool
    ensures { result ≡ all_words values.now }
{
    match values.form() {
        Form::Values(_) => false,
        Form::Run(run) => {
            run.count == 65536 || (run.count == 32768 && run.stride == 2 && run.base == 0)
        }
    }
}

/// Whether a set has all bytes.
fn has_all_bytes(values: &Vs8) -> bool
    ensures { result ≡ all_bytes values.now }
{
    match values.form() {
        Form::Values(_) => false,
        Form::Run(run) => run.count == 256,
    }
}

/// The least number of a set of words that isn't whole.
pub fn least_number(values: &Vs16) -> Option<u16>
    ensures value { result ≡ least_word values.now }
    ensures least { IfSome result (IsLeast values.now) }
{
    if has_all_words(values) {
        return None;
    }
    Some(values.least())
}

/// The greatest number of a set of bytes, where it hasn't all.
pub fn greatest_number(values: &Vs8) -> Option<u8>
    ensures value { result ≡ greatest_byte values.now }
    ensures greatest { IfSome result (IsGreatest values.now) }
{
    if has_all_bytes(values) {
        return None;
    }
    Some(values.greatest())
}

/// The deepest stack pointer that an item shows by a set that isn't whole.
fn deepest_in(item: &Item) -> Option<Deepest>
    ensures { result ≡ the_deepest_in item.now }
{
    match item {
        Item::Stack {
            at: Set::W(values),
            ..
        } => Some(Deepest::Least(least_number(values)?)),
        Item::Stack {
            at: Set::B(values),
            ..
        } => Some(Deepest::Greatest(greatest_number(values)?)),
        _ => None,
    }
}

/// The deepest of a stack pointer and of those that items show.
pub fn deepest_of(deepest: Option<Deepest>, items: &[Item]) -> Option<Deepest>
    ensures { result ≡ the_deepest_of deepest items.now }
{
    let mut deepest = deepest;
    for item in items {
        deepest = deeper_of(deepest, deepest_in(item));
    }
    deepest
}
