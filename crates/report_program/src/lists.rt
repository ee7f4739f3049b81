//! Lists of addresses by address.

use no_memory::Memory;
use std::alloc::Global;
use std::collections::BTreeMap;

/// Lists by address, in each of which an address stands once.
pub type Lists = BTreeMap<u16, Vec<u16>>;

/// Adds an address to the list of another one, where it isn't in it.
pub fn add_once(alloc: Global, lists: &mut Lists, of: u16, address: u16) -> Result<(), Memory> {
    let list = lists.entry(of)?.or_insert(Vec::new(alloc));
    if !list.contains(&address) {
        list.push(address)?;
    }
    Ok(())
}
