//! The names of an address.

ghost use Rattle.std.specs.Prelude.{◌≡◌, ◌&&◌, ◌||◌, IfOk, IsPermutation, length};
ghost use Rattle.std.specs.List.Sorted.{IsNonDecreasingBy};
ghost use Rattle.symbol_lists.specs.Finding as finding;

use crate::symbol::{Place, Symbol};
use std::alloc::AllocError;

/// Symbols, those with the shortest names first.
#[derive(Drop)]
pub struct Names<'a> {
    pub list: Vec<Symbol<'a>>,
}

/// Whether two may be the same memory.
fn meets(asked: Place, own: Place) -> bool
    ensures { result ≡ finding.meets asked own }
{
    match (asked, own) {
        (Place::Any, _) | (_, Place::Any) => true,
        (Place::Code, Place::Code) => true,
        (Place::Internal, Place::Internal) => true,
        (Place::External, Place::External) => true,
        _ => false,
    }
}

/// The symbol's address, if it is one of the memory and not above the address.
fn up_to(place: Place, address: u16, symbol: &Symbol<'_>) -> Option<u16>
    ensures { result ≡ finding.up_to place address symbol.now }
{
    if meets(place, symbol.place) && symbol.at <= address {
        Some(symbol.at)
    } else {
        None
    }
}

/// The later of two addresses.
fn later(a: Option<u16>, b: Option<u16>) -> Option<u16>
    ensures { result ≡ finding.later a b }
{
    match (a, b) {
        (None, b) => b,
        (Some(a), None) => Some(a),
        (Some(a), Some(b)) => Some(a.max(b)),
    }
}

impl<'a> Names<'a> {
    /// These symbols, those with the shortest names first; those whose names are as long stay in order.
    pub fn of(symbols: Vec<Symbol<'a>>) -> Result<Names<'a>, AllocError>
        ensures same { IfOk result (λ names. IsPermutation symbols.entry.items names.list.items) }
        ensures shortest_first { IfOk result (λ names. IsNonDecreasingBy (λ symbol. length symbol.name.now) names.list.items) }
    {
        let mut list = symbols;
        list.sort_by_key(|symbol| symbol.name.len())?;
        Ok(Names { list })
    }

    /// The greatest address of a symbol of a memory up to an address.
    pub fn base_of(&self, place: Place, address: u16) -> Option<u16>
        ensures { result ≡ finding.base_of place address self.now.list.items }
    {
        let mut base = None;
        for (i, symbol) in self.list.iter().enumerate() {
            base = later(base, up_to(place, address, symbol));
        }
        base
    }
}

impl Symbol<'_> {
    /// Whether it stands at a base and reaches up to an address.
    pub fn is_name(&self, place: Place, base: u16, address: u16) -> bool
        ensures { result ≡ finding.is_name place base address self.now }
    {
        meets(place, self.place)
            && self.at == base
            && (self.size == 0 || u64::from(address) < self.at as u64 + self.size as u64)
    }
}
