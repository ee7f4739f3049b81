//! The cells of pages in the place of their numbers.

ghost use Rattle.std.specs.Prelude.{◌≡◌, ◌&&◌, ◌≤◌, ◌<◌, ◌++◌, ◌∷◌, [], ◌^◌, nat_le, if◌then◌else◌, true, None, Some, length, IfOk, IfSome, OnOk};
ghost use Rattle.std.specs.Option.{option_and_then, option_map};
ghost use Rattle.state_text.specs.Cells.{whole};
ghost use Rattle.cert_pages.specs.Pages as terms;
ghost use Rattle.cert_pages.specs.Pages.{cells_text, cut_by, left, names_in, onto_named, page_at, pages_named};

use crate::blocks::block_in;
use crate::fields::cells_in;
use crate::pages::Pages;
use no_memory::Memory;
use std::alloc::{AllocError, Global};
use std::marker::Model;
use text_fields::cut;

/// A text with the cells in the place of the numbers of pages, how many pages have been used, and whether none was named before
/// its turn.
#[derive(Drop)]
pub struct Filled {
    pub text: Vec<u8>,
    pub used: usize,
    pub in_turn: bool,
}

impl Model for Filled {
    ghost use Rattle.std.specs.Prelude.{List, ℕ};
    ghost use Rattle.cert_pages.specs.Pages.{Filled as AFilled};

    ghost Value = { AFilled (List ℕ) };

    ghost view = { λ f. record { read = f.text.items; used = f.used; in_turn = f.in_turn } };
}

/// The first of names with commas between them, and the others.
fn first_name(names: &[u8]) -> (&[u8], Option<&[u8]>)
    ensures first { cut_by 44 names.now ≡ result.0.now ∷ left (option_map (λ rest. rest.now) result.1) }
    ensures shorter { IfSome result.1 (λ rest. length rest.now < length names.now) }
{
    match cut(names, b',') {
        Some((name, rest)) => (name, Some(rest)),
        None => (names, None),
    }
}

/// The page with this number, and the number, unless its block is below another one.
fn next_page<'a>(pages: &'a Pages, name: &[u8], least: u32, digits: u8) -> Option<(usize, &'a [u8])>
    requires { digits ≤ 4 }
    ensures found { option_map (λ found. (found.0, found.1.now)) result ≡ terms.next_page digits pages.now least name.now }
    ensures below { IfSome result (λ found. found.0 < 2 ^ 63) }
{
    let (number, page) = pages.find(name)?;
    if least <= block_in(page, digits) as u32 {
        Some((number, page))
    } else {
        None
    }
}

/// Names, unless they are the dash for none.
fn some_names(names: &[u8]) -> Option<&[u8]>
    ensures { left (option_map (λ some. some.now) result) ≡ names_in names.now }
{
    if names == b"-".as_slice() {
        None
    } else {
        Some(names)
    }
}

/// How many pages have been used with this one.
fn used_with(used: usize, number: usize) -> usize
    requires { number < 2 ^ 63 }
    ensures { result ≡ terms.used_with used number }
{
    if number == used { number + 1 } else { used }
}

/// Whether all pages so far were named in their turn, and this one too.
fn stays_in_turn(in_turn: bool, number: usize, used: usize) -> bool
    ensures { result ≡ (in_turn && nat_le number used) }
{
    in_turn && number <= used
}

/// The cells of the pages with these numbers, each behind a semicolon.
fn cells_named(
    alloc: Global,
    pages: &Pages,
    names: &[u8],
    used: usize,
    digits: u8,
) -> Result<Option<Filled>, Memory>
    requires { digits ≤ 4 }
    ensures { IfOk result (λ found. found ≡ option_map (onto_named [] true) (pages_named digits pages.now used 0 (names_in names.now))) }
{
    let mut text = Vec::new(alloc);
    let mut used = used;
    let mut least = 0u32;
    let mut in_turn = true;
    let mut rest = some_names(names);
    while let Some(names) = rest {
        let (name, more) = first_name(names);
        let Some((number, page)) = next_page(pages, name, least, digits) else {
            return Ok(None);
        };
        text.push(b';')?;
        text.extend_from_slice(page)?;
        in_turn = stays_in_turn(in_turn, number, used);
        used = used_with(used, number);
        least = block_in(page, digits) as u32 + 1;
        rest = more;
    }
    Ok(Some(Filled {
        text,
        used,
        in_turn,
    }))
}

/// Adds cells that each stand behind a semicolon, without the first semicolon, or a dash where there are none.
fn push_cells(out: &mut Vec<u8>, cells: &[u8]) -> Result<(), AllocError>
    ensures { OnOk result (out.new.items ≡ out.old.items ++ terms.dashed_cells cells.now) }
{
    match cells {
        [_, rest @ ..] => out.extend_from_slice(rest),
        [] => out.extend_from_slice(b"-"),
    }
}

/// The text between two others, as it is.
fn put_between(
    alloc: Global,
    front: &[u8],
    cells: &[u8],
    rest: &[u8],
) -> Result<Vec<u8>, AllocError>
    ensures { IfOk result (λ text. text.items ≡ whole (front.now, terms.dashed_cells cells.now, rest.now)) }
{
    let mut text = Vec::new(alloc);
    text.extend_from_slice(front)?;
    text.extend_from_slice(b"M=")?;
    push_cells(&mut text, cells)?;
    text.extend_from_slice(rest)?;
    Ok(text)
}

/// A text with the cells in the place of the numbers of pages, of which so many have been used. None: there is no such page, or
/// the blocks don't ascend.
pub fn fill(
    alloc: Global,
    pages: &Pages,
    text: &[u8],
    used: usize,
    digits: u8,
) -> Result<Option<Filled>, Memory>
    requires { digits ≤ 4 }
    ensures { IfOk result (λ found. found ≡ terms.filled digits pages.now used text.now) }
{
    let Some((front, names, rest)) = cells_in(text) else {
        let mut same = Vec::new(alloc);
        same.extend_from_slice(text)?;
        return Ok(Some(Filled {
            text: same,
            used,
            in_turn: true,
        }));
    };
    let Some(found) = cells_named(alloc, pages, names, used, digits)? else {
        return Ok(None);
    };
    let text = put_between(alloc, front, &found.text, rest)?;
    Ok(Some(Filled { text, ..found }))
}
