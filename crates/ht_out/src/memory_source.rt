//! A source over bytes in memory.
ghost use Rattle.std.specs.Prelude.{◌≡◌, ◌<◌, ◌≤◌, ◌+◌, ◌-◌, ◌^◌, ◌↔◌, List, ℕ, Some, min, length, take, IsErr, IfOk, OnErr, All, Contains};
ghost use Rattle.std.specs.Io.{ReadsAtMost};
ghost use Rattle.std.specs.Io.KnownBytes.{ReadConsumes};
ghost use Rattle.ht_out.specs.Counts.{HasCause, Takes, next_count};

use crate::{Failed, Source};
use std::marker::Model;

/// Bytes in memory, given in pieces. Fails exactly at the calls whose numbers are listed, and each
/// time the count of faults rises by one.
#[derive(Drop)]
pub struct MemSource {
    bytes: Vec<u8>,
    // The first `at` bytes were given.
    at: usize,
    piece: usize,
    fail: Vec<u64>,
    calls: u64,
    taken: u64,
    faults: u64,
}

impl Model for MemSource {
    ghost use Rattle.std.specs.Prelude.{◌≡◌, ◌≤◌, ◌<◌, ◌^◌, ◌-◌, drop, vec_len, All};
    ghost use Rattle.ht_out.specs.InMemory.{SourceState};

    ghost Value = { SourceState };

    ghost view = { λ s. record {
      left = drop s.at s.bytes.items;
      piece = s.piece;
      fail = s.fail.items;
      calls = s.calls;
      taken = s.taken;
      faults = s.faults;
    } };

    ghost invariant = { λ s. (s.at ≤ vec_len s.bytes) × (1 ≤ s.piece) };
}

impl MemSource {
    /// A source with all of the bytes left, which gives at most `piece` bytes a call. Calls are
    /// counted from 0. Takes no memory.
    pub fn new(bytes: Vec<u8>, piece: usize, fail: Vec<u64>) -> MemSource
        requires piece { 1 ≤ piece }
        requires fail { All (λ k. k < 2 ^ 64 - 1) fail.items }
        ensures { result ≡ record { left = bytes.items; piece = piece; fail = fail.items; calls = 0; taken = 0; faults = 0 } }
    {
        MemSource {
            bytes,
            at: 0,
            piece,
            fail,
            calls: 0,
            taken: 0,
            faults: 0,
        }
    }
}

impl Source for MemSource {
    ghost left = { λ s. Some s.left };

    ghost taken = { λ s. s.taken };

    ghost faults = { λ s. s.faults };

    fn next(&mut self, buf: &mut [u8]) -> Result<usize, Failed>
        requires { 0 < length buf.old }
        ensures bound { ReadsAtMost result buf.new }
        ensures bytes { ReadConsumes (Some self.old.left) (Some self.new.left) result buf.new }
        ensures taken { Takes self.old.taken self.new.taken result }
        ensures cause { HasCause self.old.faults self.new.faults result }

        // A call fails exactly where its number is listed, and each other takes what it can.
        ensures failed { IsErr result ↔ Contains self.old.fail self.old.calls }
        ensures count { IfOk result (λ n. n ≡ min self.old.piece (min (length buf.old) (length self.old.left))) }
        ensures counted { OnErr result (self.new.faults ≡ next_count self.old.faults) }
        ensures rest { (self.new.calls ≡ next_count self.old.calls) × (self.new.piece ≡ self.old.piece) × (self.new.fail ≡ self.old.fail) }
    {
        let failing = self.fail.contains(&self.calls);
        self.calls = self.calls.saturating_add(1);
        if failing {
            self.faults = self.faults.saturating_add(1);
            return Err(Failed);
        }
        let count = fill(buf, &self.bytes[self.at..], self.piece);
        self.at += count;
        self.taken = self.taken.saturating_add(count as u64);
        Ok(count)
    }
}

// Copies to the front of `buf` what there is, but no more than a piece.
fn fill(buf: &mut [u8], from: &[u8], piece: usize) -> usize
    ensures count { result ≡ min piece (min (length buf.old) (length from.now)) }
    ensures front { take result buf.new ≡ take result from.now }
{
    let count = piece.min(buf.len()).min(from.len());
    buf[..count].copy_from_slice(&from[..count]);
    count
}
