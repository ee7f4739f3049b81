//! The blocks of cells.

ghost use Rattle.std.specs.Prelude.{◌≡◌, ◌≤◌, ◌&&◌, ◌==◌};
ghost use Rattle.std.specs.List.{list_all};
ghost use Rattle.std.specs.Option.{option_map};
ghost use Rattle.state_text.specs.Cells as cells;
ghost use Rattle.state_text.specs.Cells.{ascend, loose_cell, size_digit};
ghost use Rattle.cert_pages.specs.Pages as pages;
ghost use Rattle.cert_pages.specs.Pages.{cut_by};

use text_fields::{cut, has, number};

/// How many addresses a block has.
const BLOCK: u16 = 32;

/// The size of a cell.
fn size_of(text: &[u8]) -> Option<u16>
    ensures { result ≡ size_digit.value text.now }
{
    let size = number(text, 1)?;
    if size == 1 || size == 2 {
        Some(size)
    } else {
        None
    }
}

/// A text, unless it is empty.
fn unless_empty(text: &[u8]) -> Option<&[u8]>
    ensures { option_map (λ bytes. bytes.now) result ≡ cells.unless_empty text.now }
{
    match text {
        [] => None,
        _ => Some(text),
    }
}

/// The place of the cell that a text begins with.
fn place_in(text: &[u8], digits: u8) -> Option<u16>
    requires { digits ≤ 4 }
    ensures { result ≡ option_map (λ cell. cell.0.0) ((loose_cell digits).value text.now) }
{
    let (front, known) = cut(text, b':')?;
    let (place, size) = cut(front, b'.')?;
    let place = number(place, digits)?;
    let _size = size_of(size)?;
    let _known = unless_empty(known)?;
    Some(place)
}

/// The block of the cell that a text begins with.
#[tactic(auto, unfolding(crate::specs::Pages::block_in))]
pub fn block_in(text: &[u8], digits: u8) -> u16
    requires { digits ≤ 4 }
    ensures { result ≡ pages.block_in digits text.now }
{
    match place_in(text, digits) {
        Some(place) => place / BLOCK,
        None => 0,
    }
}

/// The place of a cell, if it is in the block, and not below an address.
fn next_place(cell: &[u8], from: u32, block: u16, digits: u8) -> Option<u16>
    requires { digits ≤ 4 }
    ensures { result ≡ pages.next_place digits cell.now from block }
{
    let place = place_in(cell, digits)?;
    if from <= place as u32 && place / BLOCK == block {
        Some(place)
    } else {
        None
    }
}

/// Whether the cells of a text ascend from an address on, in one block.
fn ascend_in(text: &[u8], from: u32, block: u16, digits: u8) -> bool
    requires digits { digits ≤ 4 }
    requires from { from ≤ 65536 }
    ensures { result ≡ (ascend digits from (cut_by 59 text.now)
        && list_all (λ cell. pages.block_in digits cell == block) (cut_by 59 text.now)) }
{
    match cut(text, b';') {
        Some((cell, rest)) => match next_place(cell, from, block, digits) {
            Some(place) => ascend_in(rest, place as u32 + 1, block, digits),
            None => false,
        },
        None => next_place(text, from, block, digits).is_some(),
    }
}

/// Whether a text is the cells of a page: one at least, ascending, in one block, without a space. A place has so many digits.
pub fn is_page(text: &[u8], digits: u8) -> bool
    requires { digits ≤ 4 }
    ensures { result ≡ pages.is_page digits text.now }
{
    !has(text, b' ') && ascend_in(text, 0, block_in(text, digits), digits)
}
