//! The symbols of a text.

ghost use Rattle.std.specs.Prelude.{◌≡◌, ◌∷◌, ◌++◌, ◌≤◌, ◌<◌, ◌^◌, ◌||◌, [], ℕ, Ok, Err, None, IfOk, IfErr, OnOk, length, map, is_some};
ghost use Rattle.std.specs.Option.{option_map};
ghost use Rattle.symbol_lists.specs.Lines.{entry_of};
ghost use Rattle.symbol_lists.specs.Texts as texts;

use crate::fault::SymbolError;
use crate::nm::nm_line;
use crate::sdcc::{map_line, noi_line};
use crate::symbol::{Form, Symbol};
use std::alloc::Global;
use text_fields::{behind, cut};
use text_lines::without_return;

/// The longest list that is read, in bytes.
pub const MOST_BYTES: usize = 268_435_456;

/// Whether a text begins so.
fn begins(name: &[u8], text: &[u8]) -> bool
    ensures { result ≡ texts.begins name.now text.now }
{
    behind(name, text).is_some()
}

/// Which list a text is, by its first line.
fn form_of(text: &[u8]) -> Form
    ensures { result ≡ texts.form_of text.now }
{
    if begins(b"DEF ", text) || begins(b"LOAD ", text) {
        Form::Noi
    } else if begins(b"ASxxxx", text) || begins(b"\x0CASxxxx", text) {
        Form::Map
    } else {
        Form::Nm
    }
}

/// What a line says: perhaps a symbol, and nothing at all where it is of no form.
fn said_by(form: Form, line: &[u8]) -> Option<Option<Symbol<'_>>>
    ensures { option_map (option_map entry_of) result ≡ texts.said_by form line.now }
{
    if line.is_empty() {
        return Some(None);
    }
    match form {
        Form::Nm => nm_line(line),
        Form::Noi => noi_line(line),
        Form::Map => Some(map_line(line)),
    }
}

/// Takes the line of a number, and adds its symbol, if it has one.
fn read_line<'a>(
    list: &mut Vec<Symbol<'a>>,
    form: Form,
    number: u32,
    line: &'a [u8],
) -> Result<(), SymbolError>
    ensures list { OnOk result (texts.with_line form number (map entry_of list.old.items) line.now ≡ Ok (map entry_of list.new.items)) }
    ensures bad { IfErr result (texts.TellsLine form number (map entry_of list.old.items) line.now) }
{
    match said_by(form, line) {
        None => {
            return Err(SymbolError::Bad { line: number, form });
        }
        Some(None) => {}
        Some(Some(symbol)) => list.push(symbol)?,
    }
    Ok(())
}

/// The symbols of a text, in its order, or its first line that is of no form. One carriage return at the end of a line is none
/// of it. Blank lines are passed over, and of a map each line without a symbol.
pub fn read_symbols(alloc: Global, text: &[u8]) -> Result<Vec<Symbol<'_>>, SymbolError>
    requires { length text.now ≤ MOST_BYTES }
    ensures symbols { IfOk result (λ list. texts.symbols_of text.now ≡ Ok (map entry_of list.items)) }
    ensures refused { IfErr result (texts.Tells text.now) }
{
    let form = form_of(text);
    let mut list = Vec::new(alloc);
    let mut rest = text;
    let mut count = 0;
    while let Some((line, behind)) = cut(rest, b'\n') {
        read_line(&mut list, form, count + 1, without_return(line))?;
        count += 1;
        rest = behind;
    }
    if !rest.is_empty() {
        read_line(&mut list, form, count + 1, without_return(rest))?;
    }
    Ok(list)
}
