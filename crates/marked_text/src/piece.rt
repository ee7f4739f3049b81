//! The pieces of a text with marks.

/// A piece of a text with marks.
#[derive(Clone, Copy)]
pub enum Piece<'a> {
    /// Marks as they stand.
    Marks(&'a str),
    /// Bytes as they stand.
    Bytes(&'a [u8]),
    /// Text in which no mark is read.
    Text(&'a [u8]),
    /// An address, by four digits.
    Address(u16),
    /// A link to the row of an address, as HTML has it.
    Link(u16),
    /// A number by two digits.
    Byte(u8),
    /// A decimal number.
    Number(usize),
}
