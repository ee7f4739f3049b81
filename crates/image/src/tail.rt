//! What may follow the text of an image.

/// What may stand behind the end record's line.
#[derive(Clone, Copy, Debug, PartialEq, Eq)]
pub enum Tail {
    /// Blank lines alone.
    Blank,
    /// A second text, which is none of the image text.
    Second,
}
