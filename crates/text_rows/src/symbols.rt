//! Lists of symbols, and the names of addresses.

use crate::numbers::{halves, push_bytes, word_of};
use no_memory::Memory;
use std::alloc::{AllocError, Global};
use symbol_lists::{MOST_BYTES, Names, Place, Symbol, SymbolError, read_symbols};

/// The word of a memory.
fn memory_word(place: Place) -> &'static str {
    match place {
        Place::Any => "any",
        Place::Code => "code",
        Place::Internal => "internal",
        Place::External => "external",
    }
}

/// The memory of a word.
fn memory_of(word: &str) -> Place {
    match word {
        "code" => Place::Code,
        "internal" => Place::Internal,
        "external" => Place::External,
        _ => Place::Any,
    }
}

/// Adds each symbol: where it stands, how many bytes it has, and its name.
fn push_each(out: &mut String, list: &Vec<Symbol<'_>>) -> Result<(), AllocError> {
    if list.is_empty() {
        return out.push_str("none");
    }
    for symbol in list.iter() {
        write!(
            out,
            "{} {:04X} {} ",
            memory_word(symbol.place),
            symbol.at,
            symbol.size
        )?;
        push_bytes(out, symbol.name)?;
        out.push_str(", ")?;
    }
    Ok(())
}

/// Adds the names of an address, and how far behind them it stands.
fn push_named(
    out: &mut String,
    names: &Names<'_>,
    place: Place,
    address: u16,
) -> Result<(), AllocError> {
    let Some(base) = names.base_of(place, address) else {
        return out.push_str("none");
    };
    let mut is_named = false;
    for symbol in names.list.iter() {
        if symbol.is_name(place, base, address) {
            push_bytes(out, symbol.name)?;
            write!(out, "+{} ", address.wrapping_sub(base))?;
            is_named = true;
        }
    }
    out.push_str(if is_named { "" } else { "none" })
}

/// Adds what stands in a list, or the names of an address by it.
fn push_asked(
    out: &mut String,
    kind: &str,
    asked: &str,
    list: Vec<Symbol<'_>>,
) -> Result<(), AllocError> {
    if kind == "symbols" {
        return push_each(out, &list);
    }
    let (place, rest) = halves(asked);
    let names = Names::of(list)?;
    push_named(out, &names, memory_of(place), word_of(halves(rest).0))
}

/// Adds the symbols of a list, or the names of an address, or the line that is refused.
pub fn push_symbols(
    alloc: Global,
    out: &mut String,
    kind: &str,
    asked: &str,
) -> Result<(), Memory> {
    let text = if kind == "symbols" {
        asked
    } else {
        halves(halves(asked).1).1
    };
    let list = text.as_bytes();
    if list.len() > MOST_BYTES {
        return Ok(out.push_str("long")?);
    }
    match read_symbols(alloc, list) {
        Ok(list) => Ok(push_asked(out, kind, asked, list)?),
        Err(SymbolError::Bad { line, form }) => Ok(write!(out, "line {line}: {form:?}")?),
        Err(SymbolError::Memory) => Err(Memory),
    }
}
