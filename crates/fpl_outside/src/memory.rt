//! Sources and sinks in memory.
ghost use Rattle.std.specs.Prelude.{◌≡◌, ◌≤◌, ◌<◌, ◌+◌, ◌-◌, ◌^◌, ◌↔◌, ◌⊎◌, ℕ, min, [], None, Some, length, Contains, IfOk, IsTrue};
ghost use Rattle.fpl_outside.specs.Outside.{Rose, Reads, Puts};
ghost use Rattle.fpl_outside.specs.Memory.{after_read, after_put};

use crate::{Got, Put, Sink, Source};
use std::alloc::{AllocError, Global};
use std::marker::Model;

/// A source over bytes in memory that fails at chosen calls.
#[derive(Drop)]
pub struct MemorySource {
    bytes: Vec<u8>,
    at: usize,
    most: usize,
    failing: Vec<u64>,
    calls: u64,
    faults: u64,
}

impl Model for MemorySource {
    ghost use Rattle.std.specs.Prelude.{◌≤◌, drop, vec_len};
    ghost use Rattle.fpl_outside.specs.Memory.{SourceState};

    ghost Value = { SourceState };

    ghost view = { λ s. record { left = drop s.at s.bytes.items; most = s.most; failing = s.failing.items; calls = s.calls; faults = s.faults } };

    ghost invariant = { λ s. (s.at ≤ vec_len s.bytes) × (1 ≤ s.most) };
}

impl MemorySource {
    /// A source of `bytes` whose reads give at most `most` bytes each and fail at the calls with the numbers
    /// in `failing`, counted from 1.
    pub fn new(bytes: Vec<u8>, most: usize, failing: Vec<u64>) -> Self
        requires { 1 ≤ most }
        ensures { result ≡ record { left = bytes.items; most = most; failing = failing.items; calls = 0; faults = 0 } }
    {
        MemorySource {
            bytes,
            at: 0,
            most,
            failing,
            calls: 0,
            faults: 0,
        }
    }
}

// A call past the last number that a u64 holds stands on no list.
fn is_next_listed(failing: &[u64], calls: u64) -> bool
    ensures { IsTrue result ↔ Contains failing.now (calls + 1) }
{
    match calls.checked_add(1) {
        Some(number) => failing.contains(&number),
        None => false,
    }
}

impl Source for MemorySource {
    ghost left = { λ s. Some s.left };

    ghost faults = { λ s. s.faults };

    /// Fails exactly at the chosen calls. Else it is the end where nothing is left, and gives the least of
    /// `most`, the buffer's length and the bytes left.
    fn read(&mut self, buf: &mut [u8]) -> Got
        requires { 0 < length buf.old }
        ensures bytes { Reads (Some self.old.left) (Some self.new.left) buf.new result }
        ensures later { self.old.faults ≤ self.new.faults }
        ensures cause { result ≡ Got.Failed → Rose self.old.faults self.new.faults }

        ensures failed { (result ≡ Got.Failed) ↔ Contains self.old.failing (self.old.calls + 1) }
        ensures count { (n : ℕ) → result ≡ Got.Read n → n ≡ min (min (length self.old.left) self.old.most) (length buf.old) }
        ensures state { self.new ≡ after_read self.old result }
    {
        let fails = is_next_listed(&self.failing, self.calls);
        self.calls = self.calls.saturating_add(1);
        if fails {
            self.faults = self.faults.saturating_add(1);
            return Got::Failed;
        }
        let left = self.bytes.len() - self.at;
        if left == 0 {
            return Got::End;
        }
        let count = left.min(self.most).min(buf.len());
        buf[..count].copy_from_slice(&self.bytes[self.at..self.at + count]);
        self.at += count;
        Got::Read(count)
    }
}

/// A source over bytes in memory that never fails.
#[derive(Drop)]
pub struct SteadySource {
    bytes: Vec<u8>,
    at: usize,
}

impl Model for SteadySource {
    ghost use Rattle.std.specs.Prelude.{◌≤◌, drop, vec_len, List, ℕ};

    ghost Value = { List ℕ };

    ghost view = { λ s. drop s.at s.bytes.items };

    ghost invariant = { λ s. s.at ≤ vec_len s.bytes };
}

impl SteadySource {
    /// A source of `bytes`.
    pub fn new(bytes: Vec<u8>) -> Self
        ensures { result ≡ bytes.items }
    {
        SteadySource { bytes, at: 0 }
    }
}

impl Source for SteadySource {
    ghost left = { λ s. Some s };

    ghost faults = { λ _. 0 };

    fn read(&mut self, buf: &mut [u8]) -> Got {
        let left = self.bytes.len() - self.at;
        if left == 0 {
            return Got::End;
        }
        let count = left.min(buf.len());
        buf[..count].copy_from_slice(&self.bytes[self.at..self.at + count]);
        self.at += count;
        Got::Read(count)
    }
}

/// A sink into memory that fails at chosen calls, and where its room is used up.
#[derive(Drop)]
pub struct MemorySink {
    bytes: Vec<u8>,
    room: usize,
    most: usize,
    failing: Vec<u64>,
    calls: u64,
    faults: u64,
}

impl Model for MemorySink {
    ghost use Rattle.std.specs.Prelude.{◌≤◌, vec_len, vec_capacity};
    ghost use Rattle.fpl_outside.specs.Memory.{SinkState};

    ghost Value = { SinkState };

    ghost view = { λ s. record { taken = s.bytes.items; room = s.room; most = s.most; failing = s.failing.items; calls = s.calls; faults = s.faults } };

    ghost invariant = { λ s. (vec_len s.bytes ≤ s.room) × (s.room ≤ vec_capacity s.bytes) × (1 ≤ s.most) };
}

impl MemorySink {
    /// A sink with room for `room` bytes in all, whose puts take at most `most` bytes each and fail at the
    /// calls with the numbers in `failing`, counted from 1.
    pub fn new(
        alloc: Global,
        room: usize,
        most: usize,
        failing: Vec<u64>,
    ) -> Result<Self, AllocError>
        requires { 1 ≤ most }
        ensures { IfOk result (λ s. s ≡ record { taken = []; room = room; most = most; failing = failing.items; calls = 0; faults = 0 }) }
    {
        let bytes = Vec::with_capacity(alloc, room)?;
        Ok(MemorySink {
            bytes,
            room,
            most,
            failing,
            calls: 0,
            faults: 0,
        })
    }

    /// What was taken so far.
    pub fn bytes(&self) -> &[u8]
        ensures { result.now ≡ self.now.taken }
    {
        &self.bytes
    }
}

impl Sink for MemorySink {
    ghost taken = { λ s. Some s.taken };

    ghost faults = { λ s. s.faults };

    /// Fails exactly at the chosen calls and where the room is used up. Else it takes the least of `most`, the
    /// piece's length and the room left.
    fn put(&mut self, piece: &[u8]) -> Put
        requires { 0 < length piece.now }
        ensures bytes { Puts (Some self.old.taken) (Some self.new.taken) piece.now result }
        ensures later { self.old.faults ≤ self.new.faults }
        ensures cause { result ≡ Put.Failed → Rose self.old.faults self.new.faults }

        ensures failed { (result ≡ Put.Failed) ↔ (Contains self.old.failing (self.old.calls + 1) ⊎ (self.old.room ≤ length self.old.taken)) }
        ensures count { (n : ℕ) → result ≡ Put.Took n → n ≡ min (min (self.old.room - length self.old.taken) self.old.most) (length piece.now) }
        ensures state { self.new ≡ after_put self.old piece.now result }
    {
        let fails = is_next_listed(&self.failing, self.calls);
        self.calls = self.calls.saturating_add(1);
        let left = self.room - self.bytes.len();
        if fails || left == 0 {
            self.faults = self.faults.saturating_add(1);
            return Put::Failed;
        }
        let count = left.min(self.most).min(piece.len());
        self.bytes.extend_from_slice(&piece[..count]).unwrap();
        Put::Took(count)
    }
}

/// Takes every piece whole, tells no bytes, and never fails.
#[derive(Clone, Copy, Debug)]
pub struct NullSink;

impl NullSink {
    pub fn new() -> Self {
        NullSink
    }
}

impl Sink for NullSink {
    ghost taken = { λ _. None };

    ghost faults = { λ _. 0 };

    fn put(&mut self, piece: &[u8]) -> Put
        requires { 0 < length piece.now }
        ensures { result ≡ Put.Took (length piece.now) }
    {
        Put::Took(piece.len())
    }
}
