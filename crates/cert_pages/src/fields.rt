//! The field of the cells in a text.

ghost use Rattle.std.specs.Prelude.{◌≡◌, ◌++◌, ◌+◌, ◌≤◌, length, take, drop};
ghost use Rattle.std.specs.Option.{option_map};
ghost use Rattle.state_text.specs.Cells as cells;
ghost use Rattle.cert_pages.specs.Pages.{behind_front};

use text_fields::{behind, cut};

/// The parts of a text that has no field of cells in front of a place, where a field begins.
fn cells_from(text: &[u8], place: usize) -> Option<(&[u8], &[u8], &[u8])>
    requires { place ≤ length text.now }
    ensures { option_map (λ parts. (parts.0.now, parts.1.now, parts.2.now)) result
        ≡ option_map (behind_front (take place text.now)) (cells.cells_in (drop place text.now)) }
{
    let (front, rest) = text.split_at(place);
    let Some((field, _)) = cut(rest, b' ') else {
        let cells = behind(b"M=", rest)?;
        return Some((front, cells, b""));
    };
    match behind(b"M=", field) {
        Some(cells) => Some((front, cells, rest.split_at(field.len()).1)),
        None => cells_from(text, place + field.len() + 1),
    }
}

/// What stands in front of the field of the cells, behind its name, and behind the field.
pub fn cells_in(text: &[u8]) -> Option<(&[u8], &[u8], &[u8])>
    ensures { option_map (λ parts. (parts.0.now, parts.1.now, parts.2.now)) result ≡ cells.cells_in text.now }
{
    cells_from(text, 0)
}
