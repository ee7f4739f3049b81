//! The trace of a run along a script.

ghost use Rattle.std.specs.Prelude.{◌≡◌, ◌++◌, IfOk, OnOk, codes};
ghost use Rattle.std.specs.Fmt.{decimal};
ghost use Rattle.std.specs.List.{flat_map};
ghost use Rattle.item_lines.specs.Line.{item_line_of};
ghost use Rattle.run_trace.specs.Trace.{end_line, need_line, run_of, wild_line};

use crate::emulator::{Emulator, Ran};
use call_context::Item;
use choosing::Choices;
use dense_text::{Text, TextBuilder};
use hex_digits::hex_word;
use item_lines::{InstrText, put_item};
use no_memory::Memory;
use std::alloc::{AllocError, Global};

/// How a run ended.
#[derive(Clone, Copy, Debug, PartialEq, Eq)]
pub enum End {
    /// After all of its steps.
    Ran,
    /// At a step that leaves the model.
    Wild,
    /// At a step that lacks a choice.
    NeedChoice,
}

/// A run's text, and how it ended.
#[derive(Drop)]
pub struct Trace {
    pub end: End,
    pub text: Text,
}

/// Adds the lines of what a step met.
fn push_items<T: InstrText>(text: &mut Vec<u8>, texts: &T, items: &[Item]) -> Result<(), Memory>
    ensures { OnOk result (text.new.items ≡ text.old.items ++ flat_map (λ item. item_line_of (T.text_of texts.now) item ++ codes "\n") items.now) }
{
    for item in items {
        put_item(texts, item, text)?;
        text.push(b'\n')?;
    }
    Ok(())
}

/// Adds the lines of what a step met, which are put together first.
fn push_step<T: InstrText>(
    text: &mut TextBuilder,
    lines: &mut Vec<u8>,
    texts: &T,
    items: &[Item],
) -> Result<(), Memory>
    ensures { OnOk result (text.new ≡ text.old ++ flat_map (λ item. item_line_of (T.text_of texts.now) item ++ codes "\n") items.now) }
{
    lines.clear();
    push_items(lines, texts, items)?;
    text.push_part(lines.as_slice())
}

/// Adds a word and a number.
fn push_number(
    text: &mut Vec<u8>,
    alloc: Global,
    word: &[u8],
    number: u32,
) -> Result<(), AllocError>
    ensures { OnOk result (text.new.items ≡ text.old.items ++ word.now ++ decimal number) }
{
    let digits = number.to_string(alloc)?;
    text.extend_from_slice(word)?;
    text.extend_from_slice(digits.as_str().as_bytes())
}

/// The line of the steps that were done.
#[tactic(auto, unfolding(crate::specs::Trace::end_line))]
fn end_of(alloc: Global, steps: u32) -> Result<Vec<u8>, AllocError>
    ensures { IfOk result (λ line. line.items ≡ end_line steps) }
{
    let mut line = Vec::new(alloc);
    push_number(&mut line, alloc, b"END ", steps)?;
    line.extend_from_slice(b"\n")?;
    Ok(line)
}

/// The line of the step that leaves the model.
#[tactic(auto, unfolding(crate::specs::Trace::wild_line))]
fn wild_at(alloc: Global, step: u32, pc: u16) -> Result<Vec<u8>, AllocError>
    ensures { IfOk result (λ line. line.items ≡ wild_line step pc) }
{
    let mut line = Vec::new(alloc);
    push_number(&mut line, alloc, b"WILD ", step)?;
    line.extend_from_slice(b" ")?;
    line.extend_from_slice(&hex_word(pc))?;
    line.extend_from_slice(b"\n")?;
    Ok(line)
}

/// The line of the step that lacks a choice.
#[tactic(auto, unfolding(crate::specs::Trace::need_line))]
fn need_at(alloc: Global, step: u32) -> Result<Vec<u8>, AllocError>
    ensures { IfOk result (λ line. line.items ≡ need_line step) }
{
    let mut line = Vec::new(alloc);
    push_number(&mut line, alloc, b"NEED ", step)?;
    line.extend_from_slice(b"\n")?;
    Ok(line)
}

/// A run that ended, with its last line.
fn ended(mut text: TextBuilder, line: Vec<u8>, end: End) -> Result<Trace, Memory>
    ensures end { IfOk result (λ trace. trace.end ≡ end) }
    ensures text { IfOk result (λ trace. trace.text ≡ text ++ line.items) }
{
    text.push_part(line.as_slice())?;
    Ok(Trace {
        end,
        text: text.into_text(),
    })
}

/// The trace of at most so many steps of a machine along a script.
pub fn trace_of<E: Emulator, T: InstrText>(
    alloc: Global,
    machine: &mut E,
    texts: &T,
    script: Vec<u16>,
    steps: u32,
) -> Result<Trace, Memory>
    ensures { IfOk result (λ trace. (trace.end, trace.text) ≡ run_of (E.runner machine.old) (T.text_of texts.now) steps (E.state machine.old) script.items) }
{
    let mut choices = Choices::new(script);
    let mut text = TextBuilder::new(alloc)?;
    let mut lines = Vec::new(alloc);
    for done in 0..steps {
        let pc = machine.pc();
        match machine.step(&mut choices) {
            Ran::Met(items) => push_step(&mut text, &mut lines, texts, items.as_slice())?,
            Ran::Wild => {
                let line = wild_at(alloc, done + 1, pc)?;
                return ended(text, line, End::Wild);
            }
            Ran::NeedChoice => {
                let line = need_at(alloc, done + 1)?;
                return ended(text, line, End::NeedChoice);
            }
        }
    }
    let line = end_of(alloc, steps)?;
    ended(text, line, End::Ran)
}
