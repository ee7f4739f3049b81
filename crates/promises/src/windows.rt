//! The windows that are promised of an address.

ghost use Rattle.std.specs.Prelude.{◌≡◌};
ghost use Rattle.std.specs.Option.{option_map};
ghost use Rattle.promises.specs.Keeping as keeping;

use crate::breaking::{is_store, windows_for, windows_for_all};
use crate::promise::{Promise, Window};
use crate::spoken::Spoken;

/// The windows that an address has of its own.
fn own_windows(promises: &[Promise], pc: u16) -> Option<&[Window]>
    ensures { option_map (λ found. found.now) result ≡ keeping.first_of_all (keeping.windows_for pc) promises.now }
{
    for promise in promises {
        if let Some(windows) = windows_for(pc, promise) {
            return Some(windows);
        }
    }
    None
}

/// The windows of each store.
fn other_windows(promises: &[Promise]) -> Option<&[Window]>
    ensures { option_map (λ found. found.now) result ≡ keeping.first_of_all keeping.windows_for_all promises.now }
{
    for promise in promises {
        if let Some(windows) = windows_for_all(promise) {
            return Some(windows);
        }
    }
    None
}

/// The windows that are promised of the instruction at an address: its own, else those of each store.
pub fn windows_at<'a, S: Spoken>(
    promises: &'a [Promise],
    image: &S,
    pc: u16,
) -> Option<&'a [Window]>
    ensures { option_map (λ found. found.now) result ≡ keeping.windows_at (S.spoken image.now) promises.now pc }
{
    if let Some(windows) = own_windows(promises, pc) {
        return Some(windows);
    }
    let windows = other_windows(promises)?;
    if is_store(image.site_at(pc)) {
        Some(windows)
    } else {
        None
    }
}
