//! A sink into memory.
ghost use Rattle.std.specs.Prelude.{◌≡◌, ◌<◌, ◌≤◌, ◌+◌, ◌-◌, ◌^◌, ◌↔◌, ◌⊎◌, [], Some, min, length, IsErr, IfOk, OnErr, All, Contains};
ghost use Rattle.std.specs.Io.KnownBytes.{WriteAppends};
ghost use Rattle.ht_out.specs.Counts.{HasCause, next_count};

use crate::{Failed, Sink};
use ht_word::NoMemory;
use std::alloc::Global;
use std::marker::Model;

/// Bytes in memory, up to a room that is taken at once. Fails exactly at the calls whose numbers
/// are listed, and where the room is full; each time the count of faults rises by one.
#[derive(Drop)]
pub struct MemSink {
    bytes: Vec<u8>,
    room: usize,
    piece: usize,
    fail: Vec<u64>,
    calls: u64,
    faults: u64,
}

impl Model for MemSink {
    ghost use Rattle.std.specs.Prelude.{◌≡◌, ◌≤◌, vec_len, vec_capacity};
    ghost use Rattle.ht_out.specs.InMemory.{SinkState};

    ghost Value = { SinkState };

    ghost view = { λ s. record {
      held = s.bytes.items;
      room = s.room;
      piece = s.piece;
      fail = s.fail.items;
      calls = s.calls;
      faults = s.faults;
    } };

    ghost invariant = { λ s. (vec_len s.bytes ≤ s.room) × (s.room ≤ vec_capacity s.bytes) × (1 ≤ s.piece) };
}

impl MemSink {
    /// A sink that holds nothing, with room for `room` bytes, which takes at most `piece` bytes a
    /// call. Calls are counted from 0.
    pub fn new(
        alloc: Global,
        room: usize,
        piece: usize,
        fail: Vec<u64>,
    ) -> Result<MemSink, NoMemory>
        requires piece { 1 ≤ piece }
        requires fail { All (λ k. k < 2 ^ 64 - 1) fail.items }
        ensures { IfOk result (λ s. s ≡ record { held = []; room = room; piece = piece; fail = fail.items; calls = 0; faults = 0 }) }
    {
        let bytes = Vec::with_capacity(alloc, room)?;
        Ok(MemSink {
            bytes,
            room,
            piece,
            fail,
            calls: 0,
            faults: 0,
        })
    }

    /// The bytes held.
    pub fn held(&self) -> &[u8]
        ensures { result.now ≡ self.now.held }
    {
        &self.bytes
    }
}

impl Sink for MemSink {
    ghost held = { λ s. Some s.held };

    ghost faults = { λ s. s.faults };

    fn put(&mut self, bytes: &[u8]) -> Result<usize, Failed>
        requires { 0 < length bytes.now }
        ensures bound { IfOk result (λ n. (1 ≤ n) × (n ≤ length bytes.now)) }
        ensures bytes { WriteAppends (Some self.old.held) (Some self.new.held) result bytes.now }
        ensures cause { HasCause self.old.faults self.new.faults result }

        // A call fails exactly where its number is listed or the room is full, and each other takes what it can.
        ensures failed { IsErr result ↔ (Contains self.old.fail self.old.calls ⊎ (self.old.room ≤ length self.old.held)) }
        ensures count { IfOk result (λ n. n ≡ min self.old.piece (min (length bytes.now) (self.old.room - length self.old.held))) }
        ensures counted { OnErr result (self.new.faults ≡ next_count self.old.faults) }
        ensures rest { (self.new.calls ≡ next_count self.old.calls) × (self.new.room ≡ self.old.room) × (self.new.piece ≡ self.old.piece) × (self.new.fail ≡ self.old.fail) }
    {
        let failing = self.fail.contains(&self.calls);
        self.calls = self.calls.saturating_add(1);
        let left = self.room - self.bytes.len();
        if failing || left == 0 {
            self.faults = self.faults.saturating_add(1);
            return Err(Failed);
        }
        let count = self.piece.min(bytes.len()).min(left);
        // The room was taken when the sink was made, so this finds it.
        self.bytes.extend_from_slice(&bytes[..count]).unwrap();
        Ok(count)
    }
}
