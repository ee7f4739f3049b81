//! Sinks in memory, for tests and for callers that know how much they write.

ghost use Rattle.std.specs.Prelude.{◌≡◌, ◌≤◌, ◌<◌, ◌-◌, ◌++◌, ◌||◌, [], length, take, Some, IfOk, OnOk, OnErr, IsOkAnd, is_err, vec_capacity};
ghost use Rattle.streams.specs.Count.{one_more};
ghost use Rattle.vsa_io.specs.Fakes.{count_of, is_failing, is_full_for};
ghost use Rattle.streams.specs.Stream.{HasRisen, appended};

use crate::calls::Calls;
use no_memory::Memory;
use std::alloc::Global;
use std::marker::Model;
use streams::{Failed, Sink};

/// Appends the first of the bytes, at most a piece and at most what there is room for, and answers how many they
/// are. The memory is there already.
fn store(held: &mut Vec<u8>, piece: usize, room: usize, bytes: &[u8]) -> usize
    requires in_room { length held.old.items ≤ room }
    requires reserved { room ≤ vec_capacity held.old }
    ensures count { result ≡ count_of piece (room - length held.old.items) bytes.now }
    ensures written { held.new.items ≡ held.old.items ++ take result bytes.now }
    ensures in_room { length held.new.items ≤ room }
    ensures reserved { room ≤ vec_capacity held.new }
{
    let count = piece.min((room - held.len()).min(bytes.len()));
    match held.extend_from_slice(&bytes[..count]) {
        Ok(()) => count,
        Err(_) => unreachable!(),
    }
}

/// A sink in memory that fails only where it is full. A call takes the least of a piece, the bytes' length and
/// the room that is left.
#[derive(Drop)]
pub struct CleanSink {
    held: Vec<u8>,
    piece: usize,
    room: usize,
    faults: u64,
}

impl Model for CleanSink {
    ghost use Rattle.std.specs.Prelude.{◌≤◌, ◌<◌, length, vec_capacity};
    ghost use Rattle.vsa_io.specs.Fakes.{CleanStore};

    ghost Value = { CleanStore };

    ghost view = { λ s. record {
      held = s.held.items;
      piece = s.piece;
      room = s.room;
      faults = s.faults;
    } };

    ghost invariant = { λ s.
        (length s.held.items ≤ s.room) × (s.room ≤ vec_capacity s.held) × (0 < s.piece) };
}

impl CleanSink {
    /// An empty sink with room for `room` bytes that takes at most `piece` of them a call. All its memory is
    /// taken here.
    pub fn with_room(alloc: Global, piece: usize, room: usize) -> Result<CleanSink, Memory>
        requires { 0 < piece }
        ensures { IfOk result (λ s. s ≡ record { held = []; piece = piece; room = room; faults = 0 }) }
    {
        Ok(CleanSink {
            held: Vec::with_capacity(alloc, room)?,
            piece,
            room,
            faults: 0,
        })
    }

    /// What was written.
    pub fn bytes(&self) -> &[u8]
        ensures { result.now ≡ self.now.held }
    {
        self.held.as_slice()
    }
}

impl Sink for CleanSink {
    ghost held = { λ s. Some s.held };

    ghost faults = { λ s. s.faults };

    fn write(&mut self, bytes: &[u8]) -> Result<usize, Failed>
        // What the call does, exactly.
        ensures fails { is_err result ≡ is_full_for self.old.held self.old.room bytes.now }
        ensures takes { 0 < length bytes.now → length self.old.held < self.old.room → IsOkAnd result (λ n. 0 < n) }
        ensures count { IfOk result (λ n. n ≡ count_of self.old.piece (self.old.room - length self.old.held) bytes.now) }
        ensures after { IfOk result (λ n. self.new ≡ record self.old { held = self.old.held ++ take n bytes.now }) }
        ensures after_failure { OnErr result (self.new ≡ record self.old { faults = one_more self.old.faults }) }

        // What each sink keeps.
        ensures fits { IfOk result (λ n. n ≤ length bytes.now) }
        ensures written { IfOk result (λ n. Some self.new.held ≡ appended (Some self.old.held) (take n bytes.now)) }
        ensures refused { OnErr result (self.new.held ≡ self.old.held) }
        ensures cause { OnErr result (HasRisen self.old.faults self.new.faults) }
        ensures quiet { OnOk result (self.new.faults ≡ self.old.faults) }
        ensures never_falls { self.old.faults ≤ self.new.faults }
    {
        if self.held.len() == self.room && !bytes.is_empty() {
            self.faults = self.faults.saturating_add(1);
            return Err(Failed);
        }
        Ok(store(&mut self.held, self.piece, self.room, bytes))
    }
}

/// A sink in memory that fails at the calls whose numbers are given, and where it is full. Else it takes as a
/// `CleanSink` does.
#[derive(Drop)]
pub struct MemSink {
    sink: CleanSink,
    calls: Calls,
}

impl Model for MemSink {
    ghost use Rattle.vsa_io.specs.Fakes.{CleanStore, MemStore};

    ghost Value = { MemStore };

    ghost view = { λ s. record {
      held = s.sink.held;
      piece = s.sink.piece;
      room = s.sink.room;
      calls = s.calls.count;
      failing = s.calls.failing.items;
      faults = s.calls.faults;
    } };
}

impl MemSink {
    /// An empty sink with room for `room` bytes that takes at most `piece` of them a call, and fails at the calls
    /// whose numbers, counted from 1, are in `failing`. The number of a call stays at `u64::MAX` once it stands
    /// there. All the memory for the bytes is taken here.
    pub fn with_room(
        alloc: Global,
        piece: usize,
        room: usize,
        failing: Vec<u64>,
    ) -> Result<MemSink, Memory>
        requires { 0 < piece }
        ensures { IfOk result (λ s. s ≡ record {
          held = [];
          piece = piece;
          room = room;
          calls = 0;
          failing = failing.items;
          faults = 0;
        }) }
    {
        Ok(MemSink {
            sink: CleanSink::with_room(alloc, piece, room)?,
            calls: Calls::new(failing),
        })
    }

    /// What was written.
    pub fn bytes(&self) -> &[u8]
        ensures { result.now ≡ self.now.held }
    {
        self.sink.bytes()
    }
}

impl Sink for MemSink {
    ghost held = { λ s. Some s.held };

    ghost faults = { λ s. s.faults };

    fn write(&mut self, bytes: &[u8]) -> Result<usize, Failed>
        // What the call does, exactly.
        ensures fails { is_err result
            ≡ (is_failing self.old.failing self.old.calls || is_full_for self.old.held self.old.room bytes.now) }
        ensures count { IfOk result (λ n. n ≡ count_of self.old.piece (self.old.room - length self.old.held) bytes.now) }
        ensures progress { IfOk result (λ n. 0 < length bytes.now → 0 < n) }
        ensures after { IfOk result (λ n. self.new ≡ record self.old {
          held = self.old.held ++ take n bytes.now;
          calls = one_more self.old.calls;
        }) }
        ensures after_failure { OnErr result (self.new ≡ record self.old {
          calls = one_more self.old.calls;
          faults = one_more self.old.faults;
        }) }

        // What each sink keeps.
        ensures fits { IfOk result (λ n. n ≤ length bytes.now) }
        ensures written { IfOk result (λ n. Some self.new.held ≡ appended (Some self.old.held) (take n bytes.now)) }
        ensures refused { OnErr result (self.new.held ≡ self.old.held) }
        ensures cause { OnErr result (HasRisen self.old.faults self.new.faults) }
        ensures quiet { OnOk result (self.new.faults ≡ self.old.faults) }
        ensures never_falls { self.old.faults ≤ self.new.faults }
    {
        self.calls.begin()?;
        match self.sink.write(bytes) {
            Ok(count) => Ok(count),
            Err(Failed) => Err(self.calls.fail()),
        }
    }
}
