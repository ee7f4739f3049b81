//! The names of addresses.

use marked_text::{Markup, Piece};
use report_lines::Space;
use symbol_lists::{Names, Place};

/// Where the names of a space lie.
pub fn memory_of(space: Space) -> Place {
    match space {
        Space::Mem => Place::Any,
        Space::Ram | Space::Sfr => Place::Internal,
        Space::Xram => Place::External,
        Space::Code => Place::Code,
    }
}

/// What stands in front of a name, and behind it.
pub type Marks = (&'static str, &'static str);

/// A name in a page, and in a label of a graph.
pub const BOLD: Marks = (" <b>", "</b>");

/// A name in plain text.
pub const PLAIN: Marks = (" ", "");

/// Writes a name, and how far behind it an address stands.
fn write_name(page: &mut Markup, name: &[u8], offset: u16, (front, end): Marks) {
    page.put_all(&[Piece::Marks(front), Piece::Text(name)]);
    if offset > 0 {
        page.put_all(&[Piece::Marks("+"), Piece::Number(usize::from(offset))]);
    }
    page.put(end)
}

/// Writes the names of an address, the shortest first.
pub fn write_names(page: &mut Markup, names: &Names<'_>, place: Place, address: u16, marks: Marks) {
    let Some(base) = names.base_of(place, address) else {
        return;
    };
    for symbol in names.list.iter() {
        if symbol.is_name(place, base, address) {
            write_name(page, symbol.name, address.wrapping_sub(base), marks);
        }
    }
}

/// Writes the names that stand at an address of the program itself.
pub fn write_labels(page: &mut Markup, names: &Names<'_>, address: u16) {
    if names.base_of(Place::Code, address) == Some(address) {
        write_names(page, names, Place::Code, address, BOLD);
    }
}

/// Writes a link to the row of an address, and its names.
pub fn write_link(page: &mut Markup, names: &Names<'_>, address: u16) {
    page.put_all(&[Piece::Link(address)]);
    write_names(page, names, Place::Code, address, BOLD)
}
