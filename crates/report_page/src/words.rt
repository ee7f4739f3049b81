//! Pieces that stand in several tables.

use marked_text::Piece;
use report_lines::{Report, Space};

/// The noun of a number of things, in one of two forms.
pub fn noun(number: usize, one: &'static str, more: &'static str) -> Piece<'static> {
    Piece::Marks(if number == 1 { one } else { more })
}

/// The word of the verdict.
pub fn verdict_word(report: &Report<'_>) -> Piece<'static> {
    Piece::Marks(if report.closed { "CLOSED" } else { "OPEN" })
}

/// The name of a space in front of an address.
pub fn space_word(space: Space) -> Piece<'static> {
    Piece::Marks(match space {
        Space::Mem => "",
        Space::Ram => "ram ",
        Space::Sfr => "sfr ",
        Space::Xram => "xram ",
        Space::Code => "code ",
    })
}
