//! The promises of a line.

ghost use Rattle.std.specs.Prelude.{◌≡◌, IfOk, map};
ghost use Rattle.std.specs.Option.{option_map};
ghost use Rattle.promises.specs.Sentences as sentences;
ghost use Rattle.promises.specs.declared.promise.Promise.TheVariants as promises;

use crate::fields::{addresses_of, windows_of};
use crate::promise::{Promise, Windows};
use crate::spoken::Growth;
use call_context::Sequence;
use hex_digits::word_in_either_case;
use std::alloc::{AllocError, Global};
use text_fields::{behind, cut};

/// A promise of each of these sites.
fn write_all(alloc: Global, sites: &[u16], windows: &Windows) -> Result<Vec<Promise>, AllocError>
    ensures { IfOk result (λ list. list.items ≡ map (λ pc. promises.Write pc windows.now) sites.now) }
{
    let mut list = Vec::new(alloc);
    for pc in sites {
        list.push(Promise::Write {
            pc: *pc,
            windows: windows.copy(),
        })?;
    }
    Ok(list)
}

/// A promise of each site of a text.
fn write_each(
    alloc: Global,
    sites: &[u8],
    windows: Windows,
) -> Result<Option<Vec<Promise>>, AllocError>
    ensures { IfOk result (λ found. option_map (λ list. list.items) found ≡ sentences.write_each sites.now windows) }
{
    if sites == b"*".as_slice() {
        let list = vec![in alloc; Promise::All { windows }]?;
        return Ok(Some(list));
    }
    let Some(sites) = addresses_of(alloc, sites)? else {
        return Ok(None);
    };
    Ok(Some(write_all(alloc, sites.as_slice(), &windows)?))
}

fn write_of(alloc: Global, growth: Growth, text: &[u8]) -> Result<Option<Vec<Promise>>, AllocError>
    ensures { IfOk result (λ found. option_map (λ list. list.items) found ≡ sentences.write_of growth text.now) }
{
    let Some((sites, windows)) = cut(text, b' ') else {
        return Ok(None);
    };
    let Some(windows) = windows_of(alloc, growth, windows)? else {
        return Ok(None);
    };
    write_each(alloc, sites, windows)
}

fn targets_of(alloc: Global, text: &[u8]) -> Result<Option<Vec<Promise>>, AllocError>
    ensures { IfOk result (λ found. option_map (λ list. list.items) found ≡ sentences.targets_of text.now) }
{
    let Some((site, targets)) = cut(text, b' ') else {
        return Ok(None);
    };
    let Some(pc) = word_in_either_case(site) else {
        return Ok(None);
    };
    let Some(targets) = addresses_of(alloc, targets)? else {
        return Ok(None);
    };
    let targets = Sequence::from_vec(targets);
    let list = vec![in alloc; Promise::Goes { pc, targets }]?;
    Ok(Some(list))
}

/// The promises of a line, one for each site; none where it is of no form.
pub fn promises_in(
    alloc: Global,
    growth: Growth,
    line: &[u8],
) -> Result<Option<Vec<Promise>>, AllocError>
    ensures { IfOk result (λ found. option_map (λ list. list.items) found ≡ sentences.promises_in growth line.now) }
{
    if line.is_empty() || line[0] == b'#' {
        return Ok(Some(Vec::new(alloc)));
    }
    if let Some(rest) = behind(b"write ", line) {
        return write_of(alloc, growth, rest);
    }
    if let Some(rest) = behind(b"targets ", line) {
        return targets_of(alloc, rest);
    }
    Ok(None)
}
