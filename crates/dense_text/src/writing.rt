//! A text on its way to a sink: short pieces are gathered, so that a sink gets few calls.

ghost use Rattle.std.specs.Prelude.{◌≡◌, ◌++◌, All, [], OnErr, OnOk};
ghost use Rattle.std.specs.List.{flat_map};
ghost use Rattle.dense_text.specs.Behind.{IsBehind};
ghost use Rattle.dense_text.specs.Ranges.{IsSound, IsWithin, piece_of, text_of};
ghost use Rattle.streams.specs.Stream.{AppendsPrefix, HasRisen, appended};

use crate::parts::{Parts, Piece};
use arrayvec::ArrayVec;
use streams::{Failed, Sink, write_all};

/// How many bytes are gathered.
const ROOM: usize = 16384;

/// Writes what was gathered.
fn flush<K: Sink>(sink: &mut K, held: &mut ArrayVec<u8, ROOM>) -> Result<(), Failed>
    ensures written { OnOk result (K.held sink.new ≡ appended (K.held sink.old) held.old.items) }
    ensures empty { OnOk result (held.new.items ≡ []) }
    ensures quiet { OnOk result (K.faults sink.new ≡ K.faults sink.old) }
    ensures prefix { OnErr result (AppendsPrefix (K.held sink.old) held.old.items (K.held sink.new)) }
    ensures cause { OnErr result (HasRisen (K.faults sink.old) (K.faults sink.new)) }
{
    write_all(sink, held.as_slice())?;
    held.clear();
    Ok(())
}

/// Gathers bytes for which there is no room behind what was gathered, or writes them.
fn put_behind<K: Sink>(
    sink: &mut K,
    held: &mut ArrayVec<u8, ROOM>,
    bytes: &[u8],
) -> Result<(), Failed>
    ensures written { OnOk result (IsBehind (K.held sink.old) (held.old.items ++ bytes.now)
        (K.held sink.new) held.new.items) }
    ensures quiet { OnOk result (K.faults sink.new ≡ K.faults sink.old) }
    ensures prefix { OnErr result (AppendsPrefix (K.held sink.old)
        (held.old.items ++ bytes.now) (K.held sink.new)) }
    ensures cause { OnErr result (HasRisen (K.faults sink.old) (K.faults sink.new)) }
{
    flush(sink, held)?;
    match held.try_extend_from_slice(bytes) {
        Ok(()) => Ok(()),
        Err(_) => write_all(sink, bytes),
    }
}

/// Gathers bytes behind those that were gathered, or writes all of them.
fn put<K: Sink>(sink: &mut K, held: &mut ArrayVec<u8, ROOM>, bytes: &[u8]) -> Result<(), Failed>
    ensures written { OnOk result (IsBehind (K.held sink.old) (held.old.items ++ bytes.now)
        (K.held sink.new) held.new.items) }
    ensures quiet { OnOk result (K.faults sink.new ≡ K.faults sink.old) }
    ensures prefix { OnErr result (AppendsPrefix (K.held sink.old)
        (held.old.items ++ bytes.now) (K.held sink.new)) }
    ensures cause { OnErr result (HasRisen (K.faults sink.old) (K.faults sink.new)) }
{
    match held.try_extend_from_slice(bytes) {
        Ok(()) => Ok(()),
        Err(_) => put_behind(sink, held, bytes),
    }
}

/// Puts a piece of some bytes.
fn put_piece<K: Sink>(
    sink: &mut K,
    held: &mut ArrayVec<u8, ROOM>,
    bytes: &[u8],
    piece: Piece,
) -> Result<(), Failed>
    requires { IsWithin bytes.now piece }
    ensures written { OnOk result (IsBehind (K.held sink.old) (held.old.items ++ piece_of bytes.now piece)
        (K.held sink.new) held.new.items) }
    ensures quiet { OnOk result (K.faults sink.new ≡ K.faults sink.old) }
    ensures prefix { OnErr result (AppendsPrefix (K.held sink.old)
        (held.old.items ++ piece_of bytes.now piece) (K.held sink.new)) }
    ensures cause { OnErr result (HasRisen (K.faults sink.old) (K.faults sink.new)) }
{
    let start = piece.start as usize;
    let end = start + piece.len as usize;
    for _ in 0..piece.times {
        put(sink, held, &bytes[start..end])?;
    }
    Ok(())
}

/// Puts pieces of some bytes.
fn put_pieces<K: Sink>(
    sink: &mut K,
    held: &mut ArrayVec<u8, ROOM>,
    bytes: &[u8],
    pieces: &[Piece],
) -> Result<(), Failed>
    requires { All (IsWithin bytes.now) pieces.now }
    ensures written { OnOk result (IsBehind (K.held sink.old) (held.old.items ++ flat_map (piece_of bytes.now) pieces.now)
        (K.held sink.new) held.new.items) }
    ensures quiet { OnOk result (K.faults sink.new ≡ K.faults sink.old) }
    ensures prefix { OnErr result (AppendsPrefix (K.held sink.old)
        (held.old.items ++ flat_map (piece_of bytes.now) pieces.now) (K.held sink.new)) }
    ensures cause { OnErr result (HasRisen (K.faults sink.old) (K.faults sink.new)) }
{
    for piece in pieces {
        put_piece(sink, held, bytes, *piece)?;
    }
    Ok(())
}

/// Writes a text by its parts.
pub fn write_parts<K: Sink>(sink: &mut K, parts: &Parts) -> Result<(), Failed>
    requires { IsSound parts.now }
    ensures written { OnOk result (K.held sink.new ≡ appended (K.held sink.old) (text_of parts.now)) }
    ensures quiet { OnOk result (K.faults sink.new ≡ K.faults sink.old) }
    ensures prefix { OnErr result (AppendsPrefix (K.held sink.old) (text_of parts.now) (K.held sink.new)) }
    ensures cause { OnErr result (HasRisen (K.faults sink.old) (K.faults sink.new)) }
{
    let bytes = parts.bytes.as_slice();
    let tail = parts.tail;
    let mut held = ArrayVec::new();
    put_pieces(sink, &mut held, bytes, parts.pieces.as_slice())?;
    put_piece(sink, &mut held, bytes, parts.last)?;
    put(sink, &mut held, &bytes[tail.start..tail.start + tail.len])?;
    flush(sink, &mut held)
}
