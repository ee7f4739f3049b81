//! Sources in memory, for tests and for callers that know what a stream is to do.

ghost use Rattle.std.specs.Prelude.{◌≡◌, ◌≤◌, ◌<◌, ◌++◌, length, take, drop, Some, IfOk, OnOk, OnErr, IsOk, is_err};
ghost use Rattle.streams.specs.Count.{one_more};
ghost use Rattle.vsa_io.specs.Fakes.{count_of, is_failing};
ghost use Rattle.streams.specs.Stream.{HasRisen, Takes, IsAtEnd};

use crate::calls::Calls;
use std::marker::Model;
use streams::{Failed, Source};

/// Copies the first of the bytes that are left into the front of the buffer, at most a piece, and answers how
/// many they are.
fn give(left: &[u8], piece: usize, buffer: &mut [u8]) -> usize
    ensures count { result ≡ count_of piece (length buffer.old) left.now }
    ensures filled { buffer.new ≡ take result left.now ++ drop result buffer.old }
{
    let count = piece.min(buffer.len().min(left.len()));
    buffer[..count].copy_from_slice(&left[..count]);
    count
}

/// A source in memory that never fails. A call gives the least of a piece, the buffer's length and what is left.
#[derive(Drop)]
pub struct CleanSource {
    bytes: Vec<u8>,
    position: usize,
    piece: usize,
}

impl Model for CleanSource {
    ghost use Rattle.std.specs.Prelude.{◌≤◌, ◌<◌, length, drop};
    ghost use Rattle.vsa_io.specs.Fakes.{CleanFeed};

    ghost Value = { CleanFeed };

    ghost view = { λ s. record { left = drop s.position s.bytes.items; piece = s.piece } };

    ghost invariant = { λ s. (s.position ≤ length s.bytes.items) × (0 < s.piece) };
}

impl CleanSource {
    /// A source of these bytes that gives at most `piece` of them a call.
    pub fn new(bytes: Vec<u8>, piece: usize) -> CleanSource
        requires { 0 < piece }
        ensures { result ≡ record { left = bytes.items; piece = piece } }
    {
        CleanSource {
            bytes,
            position: 0,
            piece,
        }
    }
}

impl Source for CleanSource {
    ghost left = { λ s. Some s.left };

    ghost faults = { λ _. 0 };

    fn read(&mut self, buffer: &mut [u8]) -> Result<usize, Failed>
        requires { 0 < length buffer.old }

        // What the call does, exactly.
        ensures succeeds { IsOk result }
        ensures count { IfOk result (λ n. n ≡ count_of self.old.piece (length buffer.old) self.old.left) }
        ensures filled { IfOk result (λ n. buffer.new ≡ take n self.old.left ++ drop n buffer.old) }
        ensures after { IfOk result (λ n. self.new ≡ record self.old { left = drop n self.old.left }) }

        // What each source keeps.
        ensures fits { IfOk result (λ n. n ≤ length buffer.old) }
        ensures taken { IfOk result (λ n. Takes (Some self.old.left) n buffer.new (Some self.new.left)) }
        ensures end { IfOk result (λ n. n ≡ 0 → IsAtEnd (Some self.old.left)) }
    {
        let count = give(&self.bytes[self.position..], self.piece, buffer);
        self.position += count;
        Ok(count)
    }
}

/// A source in memory that fails at the calls whose numbers are given, and else gives as a `CleanSource` does.
#[derive(Drop)]
pub struct MemSource {
    source: CleanSource,
    calls: Calls,
}

impl Model for MemSource {
    ghost use Rattle.vsa_io.specs.Fakes.{CleanFeed, MemFeed};

    ghost Value = { MemFeed };

    ghost view = { λ s. record {
      left = s.source.left;
      piece = s.source.piece;
      calls = s.calls.count;
      failing = s.calls.failing.items;
      faults = s.calls.faults;
    } };
}

impl MemSource {
    /// A source of these bytes that gives at most `piece` of them a call, and fails at the calls whose numbers,
    /// counted from 1, are in `failing`. The number of a call stays at `u64::MAX` once it stands there.
    pub fn new(bytes: Vec<u8>, piece: usize, failing: Vec<u64>) -> MemSource
        requires { 0 < piece }
        ensures { result ≡ record {
          left = bytes.items;
          piece = piece;
          calls = 0;
          failing = failing.items;
          faults = 0;
        } }
    {
        MemSource {
            source: CleanSource::new(bytes, piece),
            calls: Calls::new(failing),
        }
    }
}

impl Source for MemSource {
    ghost left = { λ s. Some s.left };

    ghost faults = { λ s. s.faults };

    fn read(&mut self, buffer: &mut [u8]) -> Result<usize, Failed>
        requires { 0 < length buffer.old }

        // What the call does, exactly.
        ensures fails { is_err result ≡ is_failing self.old.failing self.old.calls }
        ensures count { IfOk result (λ n. n ≡ count_of self.old.piece (length buffer.old) self.old.left) }
        ensures filled { IfOk result (λ n. buffer.new ≡ take n self.old.left ++ drop n buffer.old) }
        ensures after { IfOk result (λ n. self.new ≡ record self.old {
          left = drop n self.old.left;
          calls = one_more self.old.calls;
        }) }
        ensures after_failure { OnErr result (self.new ≡ record self.old {
          calls = one_more self.old.calls;
          faults = one_more self.old.faults;
        }) }
        ensures untouched { OnErr result (buffer.new ≡ buffer.old) }

        // What each source keeps.
        ensures fits { IfOk result (λ n. n ≤ length buffer.old) }
        ensures taken { IfOk result (λ n. Takes (Some self.old.left) n buffer.new (Some self.new.left)) }
        ensures end { IfOk result (λ n. n ≡ 0 → IsAtEnd (Some self.old.left)) }
        ensures refused { OnErr result (self.new.left ≡ self.old.left) }
        ensures cause { OnErr result (HasRisen self.old.faults self.new.faults) }
        ensures quiet { OnOk result (self.new.faults ≡ self.old.faults) }
        ensures never_falls { self.old.faults ≤ self.new.faults }
    {
        self.calls.begin()?;
        self.source.read(buffer)
    }
}
