//! The bytes of a text, one after another.

ghost use Rattle.std.specs.Prelude.{◌≡◌, ◌++◌, All, IfOk, IsTrue, OnOk};
ghost use Rattle.std.specs.List.{flat_map};
ghost use Rattle.dense_text.specs.Ranges.{IsSound, IsWithin, piece_of, text_of};

use crate::parts::{Parts, Piece};
use no_memory::Memory;

/// Adds a piece of some bytes.
fn copy_piece(copy: &mut Vec<u8>, bytes: &[u8], piece: Piece) -> Result<(), Memory>
    requires { IsWithin bytes.now piece }
    ensures { OnOk result (copy.new.items ≡ copy.old.items ++ piece_of bytes.now piece) }
{
    let start = piece.start as usize;
    let end = start + piece.len as usize;
    for _ in 0..piece.times {
        copy.extend_from_slice(&bytes[start..end])?;
    }
    Ok(())
}

/// Adds pieces of some bytes.
fn copy_pieces(copy: &mut Vec<u8>, bytes: &[u8], pieces: &[Piece]) -> Result<(), Memory>
    requires { All (IsWithin bytes.now) pieces.now }
    ensures { OnOk result
        (copy.new.items ≡ copy.old.items ++ flat_map (piece_of bytes.now) pieces.now) }
{
    for piece in pieces {
        copy_piece(copy, bytes, *piece)?;
    }
    Ok(())
}

/// A copy of a text.
fn copy_of(parts: &Parts) -> Result<Vec<u8>, Memory>
    requires { IsSound parts.now }
    ensures { IfOk result (λ copy. copy.items ≡ text_of parts.now) }
{
    let bytes = parts.bytes.as_slice();
    let tail = parts.tail;
    let mut copy = Vec::new(*parts.bytes.allocator());
    copy_pieces(&mut copy, bytes, parts.pieces.as_slice())?;
    copy_piece(&mut copy, bytes, parts.last)?;
    copy.extend_from_slice(&bytes[tail.start..tail.start + tail.len])?;
    Ok(copy)
}

/// Whether all of the bytes, in their order, are the text.
fn is_plain(parts: &Parts) -> bool
    ensures { IsTrue result → text_of parts.now ≡ parts.now.bytes.items }
{
    parts.pieces.is_empty()
        && parts.last.times == 0
        && parts.tail.start == 0
        && parts.tail.len == parts.bytes.len()
}

/// The bytes of a text, which are copied only where they stand in another order.
pub fn into_bytes(parts: Parts) -> Result<Vec<u8>, Memory>
    requires { IsSound parts }
    ensures { IfOk result (λ bytes. bytes.items ≡ text_of parts) }
{
    if is_plain(&parts) {
        return Ok(parts.bytes);
    }
    copy_of(&parts)
}
