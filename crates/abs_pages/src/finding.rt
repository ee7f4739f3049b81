//! Finding pages by their numbers, and cells in them.

ghost use Rattle.std.specs.Prelude.{◌≡◌, ◌≤◌, ◌<◌, false, MatchOption, MatchResult, option_map, drop, length, slice_index_or};
ghost use Rattle.entry_value.specs.Cells as the_cells;
ghost use Rattle.abs_pages.specs.Paging as paging;
ghost use Rattle.abs_pages.specs.Paging.{EachPage, IsPage, Paged, Rise, flat};

use crate::page::Page;
use entry_value::{Cells, Word};

/// How many pages stand in front of the first one whose number is at least another.
fn pages_below(pages: &[Page], number: u32) -> usize
    requires { Rise 0 pages.now }
    ensures value { result ≡ paging.pages_below pages.now number }
    ensures bound { result ≤ length pages.now }
{
    pages.partition_point(|page| (page.number() as u32) < number)
}

/// The index of the page of a number, or else the one at which it would stand.
pub(crate) fn place_of(pages: &[Page], number: u16) -> Result<usize, usize>
    requires { Rise 0 pages.now }
    ensures value { MatchResult result (λ index. index ≡ paging.pages_below pages.now number)
        (λ index. index ≡ paging.pages_below pages.now number) }
    ensures found { MatchResult result
        (λ index. (index < length pages.now) × ((d : Paged) → (slice_index_or pages.now index d).number ≡ number))
        (λ index. (index ≤ length pages.now) × (paging.has_page pages.now number ≡ false)) }
{
    let below = pages_below(pages, number as u32);
    if below < pages.len() && pages[below].number() == number {
        Ok(below)
    } else {
        Err(below)
    }
}

/// The page of a number.
pub(crate) fn page_at(pages: &[Page], number: u16) -> Option<&Page>
    requires { Rise 0 pages.now }
    ensures { MatchOption result (paging.has_page pages.now number ≡ false)
        (λ page. (page.now.number ≡ number) × (page.now.map.cells ≡ paging.cells_at pages.now number)) }
{
    match place_of(pages, number) {
        Ok(index) => Some(&pages[index]),
        Err(_) => None,
    }
}

/// The pages from the first one on whose number is at least another.
fn pages_from(pages: &[Page], number: u32) -> &[Page]
    requires { Rise 0 pages.now }
    ensures { result.now ≡ drop (paging.pages_below pages.now number) pages.now }
{
    &pages[pages_below(pages, number)..]
}

/// The first cell of the pages whose place is at least an address.
fn first_from(pages: &[Page], from: u32) -> Option<(u16, u8, Word)>
    ensures { result ≡ option_map (λ cell. (cell.place, cell.size, cell.word))
        (the_cells.next (flat pages.now) from) }
{
    for page in pages {
        let found = page.cells().next(from);
        if found.is_some() {
            return found;
        }
    }
    None
}

/// The cell with the least place that is at least an address.
pub(crate) fn next(pages: &[Page], from: u32) -> Option<(u16, u8, Word)>
    requires rise { Rise 0 pages.now }
    requires each { EachPage IsPage pages.now }
    ensures { result ≡ option_map (λ cell. (cell.place, cell.size, cell.word))
        (the_cells.next (flat pages.now) from) }
{
    first_from(pages_from(pages, from / 32), from)
}
