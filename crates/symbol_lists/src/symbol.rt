//! Symbols.

ghost use Rattle.std.specs.Prelude.{◌≡◌};
ghost use Rattle.std.specs.List.{list_all};
ghost use Rattle.std.specs.Option.{option_map};
ghost use Rattle.symbol_lists.specs.Lines as lines;

/// Where a symbol lies. What isn't told may be any of a chip's memories.
#[derive(Clone, Copy, PartialEq, Eq)]
pub enum Place {
    Any,
    Code,
    /// Internal RAM and the special function registers.
    Internal,
    External,
}

/// Which list a text is.
#[derive(Clone, Copy, Debug, PartialEq, Eq)]
pub enum Form {
    /// What `nm` prints.
    Nm,
    /// The `.noi` of sdcc's linker.
    Noi,
    /// Its `.map`.
    Map,
}

/// A name of an address.
#[derive(Clone, Copy)]
pub struct Symbol<'a> {
    pub name: &'a [u8],
    pub at: u16,
    /// How many bytes it has, at most 65,536. Where that isn't told, 0: it reaches up to the next symbol.
    pub size: u32,
    pub place: Place,
}

/// Whether a name has no control character.
fn is_shown(name: &[u8]) -> bool
    ensures { result ≡ list_all lines.is_shown name.now }
{
    name.iter().all(|byte| *byte >= 32 && *byte != 127)
}

/// The symbol of a value, if that is an address, and the name can be shown.
pub fn symbol_of(name: &[u8], value: u32, size: u32, place: Place) -> Option<Symbol<'_>>
    ensures { option_map lines.entry_of result ≡ lines.symbol_of name.now value size place }
{
    if value < 65_536 && is_shown(name) {
        Some(Symbol {
            name,
            at: value as u16,
            size,
            place,
        })
    } else {
        None
    }
}
