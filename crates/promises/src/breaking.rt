//! Which promise of a list a step breaks.

ghost use Rattle.std.specs.Prelude.{◌≡◌, map, List};
ghost use Rattle.std.specs.Option.{is_none, option_map};
ghost use Rattle.chip_numbers.specs.Single.{Single};
ghost use Rattle.promises.specs.Breaking as breaking;
ghost use Rattle.promises.specs.Keeping as keeping;
ghost use Rattle.promises.specs.Spoken.{Spoken as ASpoken};
ghost use Rattle.promises.specs.Text.{Numbered, promises_alone};

use crate::keeping::{keeps_targets, keeps_windows, pc_of};
use crate::promise::{Promise, Window};
use crate::spoken::{Site, Spoken};
use call_context::Item;

/// A step that breaks no promise of a list keeps them all.
fn every_line_kept()
    ensures { (spoken : ASpoken) (list : Numbered) (step : List Single)
        → is_none (breaking.broken_by spoken list step) ≡ keeping.keeps spoken (promises_alone list) step }
{}

/// The windows that a promise gives an address of its own.
pub(crate) fn windows_for(pc: u16, promise: &Promise) -> Option<&[Window]>
    ensures { option_map (λ found. found.now) result ≡ keeping.windows_for pc promise.now }
{
    match promise {
        Promise::Write { pc: at, windows } if *at == pc => Some(windows.as_slice()),
        _ => None,
    }
}

/// The windows that a promise gives each store.
pub(crate) fn windows_for_all(promise: &Promise) -> Option<&[Window]>
    ensures { option_map (λ found. found.now) result ≡ keeping.windows_for_all promise.now }
{
    match promise {
        Promise::All { windows } => Some(windows.as_slice()),
        Promise::Write { .. } | Promise::Goes { .. } => None,
    }
}

/// The targets that a promise gives an address.
fn targets_for(pc: u16, promise: &Promise) -> Option<&[u16]>
    ensures { option_map (λ found. found.now) result ≡ keeping.targets_for pc promise.now }
{
    match promise {
        Promise::Goes { pc: at, targets } if *at == pc => Some(targets.as_slice()),
        _ => None,
    }
}

/// The windows that an address has of its own, with the line that gives them.
fn own_windows(list: &[(u32, Promise)], pc: u16) -> Option<(u32, &[Window])>
    ensures { option_map (λ found. (found.0, found.1.now)) result
        ≡ keeping.first_of_all (breaking.numbered (keeping.windows_for pc)) list.now }
{
    for (line, promise) in list {
        if let Some(windows) = windows_for(pc, promise) {
            return Some((*line, windows));
        }
    }
    None
}

/// The windows of each store, with the line that gives them.
fn other_windows(list: &[(u32, Promise)]) -> Option<(u32, &[Window])>
    ensures { option_map (λ found. (found.0, found.1.now)) result
        ≡ keeping.first_of_all (breaking.numbered keeping.windows_for_all) list.now }
{
    for (line, promise) in list {
        if let Some(windows) = windows_for_all(promise) {
            return Some((*line, windows));
        }
    }
    None
}

/// The targets of an address, with the line that gives them.
fn numbered_targets(list: &[(u32, Promise)], pc: u16) -> Option<(u32, &[u16])>
    ensures { option_map (λ found. (found.0, found.1.now)) result ≡ breaking.numbered_targets list.now pc }
{
    for (line, promise) in list {
        if let Some(targets) = targets_for(pc, promise) {
            return Some((*line, targets));
        }
    }
    None
}

pub(crate) fn is_store(site: Site) -> bool
    ensures { result ≡ keeping.is_store site }
{
    match site {
        Site::Store { .. } => true,
        Site::Nothing | Site::Way => false,
    }
}

/// The windows of an address: its own, else those of each store.
fn numbered_windows<'a, S: Spoken>(
    list: &'a [(u32, Promise)],
    image: &S,
    pc: u16,
) -> Option<(u32, &'a [Window])>
    ensures { option_map (λ found. (found.0, found.1.now)) result ≡ breaking.numbered_windows (S.spoken image.now) list.now pc }
{
    if let Some(found) = own_windows(list, pc) {
        return Some(found);
    }
    if is_store(image.site_at(pc)) {
        other_windows(list)
    } else {
        None
    }
}

/// The line of the windows that a step at an address breaks.
fn broken_windows<S: Spoken>(
    list: &[(u32, Promise)],
    image: &S,
    pc: u16,
    items: &[Item],
) -> Option<u32>
    ensures { result ≡ breaking.line_unless (λ windows. keeping.keeps_windows (S.spoken image.now).growth windows (map breaking.single_of items.now))
        (breaking.numbered_windows (S.spoken image.now) list.now pc) }
{
    let (line, windows) = numbered_windows(list, image, pc)?;
    if keeps_windows(image.growth(), windows, items) {
        None
    } else {
        Some(line)
    }
}

/// The line of the targets that a step at an address breaks.
fn broken_targets(list: &[(u32, Promise)], pc: u16, items: &[Item]) -> Option<u32>
    ensures { result ≡ breaking.line_unless (λ targets. keeping.keeps_targets targets (map breaking.single_of items.now))
        (breaking.numbered_targets list.now pc) }
{
    let (line, targets) = numbered_targets(list, pc)?;
    if keeps_targets(targets, items) {
        None
    } else {
        Some(line)
    }
}

/// The line of the promise that a step breaks, of two that of the windows. Each set of its items has one number; of one that
/// has more the first counts.
pub fn broken_by<S: Spoken>(list: &[(u32, Promise)], image: &S, items: &[Item]) -> Option<u32>
    ensures line { result ≡ breaking.broken_by (S.spoken image.now) list.now (map breaking.single_of items.now) }
    ensures kept { is_none result ≡ keeping.keeps (S.spoken image.now) (promises_alone list.now) (map breaking.single_of items.now) }
{
    every_line_kept();
    let pc = pc_of(items)?;
    if let Some(line) = broken_windows(list, image, pc, items) {
        return Some(line);
    }
    broken_targets(list, pc, items)
}
