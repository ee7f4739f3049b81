//! What may be promised of an image.

ghost use Rattle.std.specs.Prelude.{◌≡◌};
ghost use Rattle.std.specs.List.{list_all};
ghost use Rattle.promises.specs.Text as texts;

use crate::promise::{Promise, Window};
use crate::spoken::{Growth, Site, Spoken};

fn is_even(number: u16) -> bool
    ensures { result ≡ texts.is_even number }
{
    number % 2 == 0
}

/// Whether a window begins and ends between words.
fn has_words(window: Window) -> bool
    ensures { result ≡ texts.has_words window }
{
    match window {
        Window::Between { lo, hi } => is_even(lo) && !is_even(hi),
        Window::BelowStack { lo } => is_even(lo),
        Window::AboveStack { .. } => true,
    }
}

/// Whether stores of so many bytes may have these windows.
fn all_suit(size: u8, windows: &[Window]) -> bool
    ensures { result ≡ list_all (texts.suits size) windows.now }
{
    windows.iter().all(|window| size == 1 || has_words(*window))
}

/// Whether an instruction may stand at an address.
fn can_run(growth: Growth, at: u16) -> bool
    ensures { result ≡ texts.can_run growth at }
{
    match growth {
        Growth::Down => is_even(at),
        Growth::Up => true,
    }
}

/// Whether instructions may stand at these addresses.
fn all_can_run(growth: Growth, targets: &[u16]) -> bool
    ensures { result ≡ list_all (texts.can_run growth) targets.now }
{
    targets.iter().all(|at| can_run(growth, *at))
}

/// Whether stores at a site may have these windows.
fn is_store_in(site: Site, windows: &[Window]) -> bool
    ensures { result ≡ texts.is_store_in site windows.now }
{
    match site {
        Site::Store { size } => all_suit(size, windows),
        Site::Nothing | Site::Way => false,
    }
}

/// How many bytes the widest store of a chip has.
fn widest(growth: Growth) -> u8
    ensures { result ≡ texts.widest growth }
{
    match growth {
        Growth::Down => 2,
        Growth::Up => 1,
    }
}

fn is_way(site: Site) -> bool
    ensures { result ≡ texts.is_way site }
{
    match site {
        Site::Way => true,
        Site::Nothing | Site::Store { .. } => false,
    }
}

/// Whether a promise may be made of an image.
fn fits<S: Spoken>(image: &S, promise: &Promise) -> bool
    ensures { result ≡ texts.fits (S.spoken image.now) promise.now }
{
    match promise {
        Promise::Write { pc, windows } => is_store_in(image.site_at(*pc), windows.as_slice()),
        Promise::All { windows } => all_suit(widest(image.growth()), windows.as_slice()),
        Promise::Goes { pc, targets } => {
            is_way(image.site_at(*pc)) && all_can_run(image.growth(), targets.as_slice())
        }
    }
}

/// Whether each promise may be made.
pub fn all_fit<S: Spoken>(image: &S, promises: &[Promise]) -> bool
    ensures { result ≡ list_all (texts.fits (S.spoken image.now)) promises.now }
{
    promises.iter().all(|promise| fits(image, promise))
}
