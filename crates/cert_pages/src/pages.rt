//! Pages in their order.

ghost use Rattle.std.specs.Prelude.{◌≡◌, ◌<◌, ◌^◌, ◌++◌, ◌∷◌, [], false, length, IfOk, IfSome, OnOk, OnErr};
ghost use Rattle.std.specs.Option.{option_map};
ghost use Rattle.cert_pages.specs.Numbers.{name_of};
ghost use Rattle.cert_pages.specs.Pages.{has_page, page_at};

use indexmap::IndexSet;
use no_memory::Memory;
use std::alloc::Global;
use std::marker::Model;

/// Pages, each of which is found by its number and by its cells in constant time. Contracts see their cells, in the order of
/// the numbers.
#[derive(Drop)]
pub struct Pages {
    cells: IndexSet<Vec<u8>>,
    names: IndexSet<Vec<u8>>,
}

impl Model for Pages {
    ghost use Rattle.std.specs.Prelude.{◌≡◌, List, map};
    ghost use Rattle.cert_pages.specs.Pages.{Page, names_from};

    ghost Value = { List Page };

    ghost view = { λ p. map (λ page. page.items) p.cells.keys };

    ghost invariant = { λ p. map (λ name. name.items) p.names.keys ≡ names_from 0 (map (λ page. page.items) p.cells.keys) };
}

/// The number of a page as it is written.
#[tactic(auto, using(crate::specs::Numbers::name_decimal))]
pub fn name(alloc: Global, number: usize) -> Result<Vec<u8>, Memory>
    ensures { IfOk result (λ text. text.items ≡ name_of number) }
{
    let digits = number.to_string(alloc)?;
    let mut text = Vec::new(alloc);
    text.extend_from_slice(digits.as_str().as_bytes())?;
    Ok(text)
}

impl Pages {
    /// No page.
    pub fn new(alloc: Global) -> Pages
        ensures { result ≡ [] }
    {
        Pages {
            cells: IndexSet::new(alloc),
            names: IndexSet::new(alloc),
        }
    }

    /// How many there are.
    pub fn len(&self) -> usize
        ensures { result ≡ length self.now }
    {
        self.cells.len()
    }

    /// Whether a page is there.
    pub fn has(&self, page: &[u8]) -> bool
        ensures { result ≡ has_page self.now page.now }
    {
        self.cells.contains(page)
    }

    /// The page with this number, and the number.
    pub fn find(&self, name: &[u8]) -> Option<(usize, &[u8])>
        ensures found { option_map (λ found. (found.0, found.1.now)) result ≡ page_at 0 self.now name.now }
        ensures below { IfSome result (λ found. found.0 < 2 ^ 63) }
    {
        let number = self.names.get_index_of(name)?;
        if number >= self.cells.len() {
            return None;
        }
        let page = self.cells.get_index(number)?;
        Some((number, page.as_slice()))
    }

    /// Adds a page that isn't there. Where memory is refused all stay as they were.
    pub fn push(&mut self, alloc: Global, page: Vec<u8>) -> Result<(), Memory>
        requires { has_page self.old page.items ≡ false }
        ensures pushed { OnOk result (self.new ≡ self.old ++ page.items ∷ []) }
        ensures stays { OnErr result (self.new ≡ self.old) }
    {
        let name = name(alloc, self.cells.len())?;
        self.names.reserve(1)?;
        self.cells.insert(page)?;
        match self.names.insert(name) {
            Ok(_) => Ok(()),
            Err(_) => unreachable!(),
        }
    }
}
