// A source and a sink in memory that fail where they are told to.
ghost use Rattle.std.specs.Prelude.{◌≡◌, ◌<◌, ◌≤◌, ◌↔◌, [], length, take, Some, IfOk, IsErr, MatchResult};
ghost use Rattle.std.specs.Io.KnownBytes.{ReadConsumes, WriteAppends};
ghost use Rattle.crystal_streams.specs.Faults.{HasCause};
ghost use Rattle.crystal_streams.specs.Memory.{ReadFails, read_count, after_read, after_failed_read, WriteFails, write_count, after_write, after_failed_write};

use super::faults::{Failed, NoMemory};
use super::sinks::Sink;
use super::sources::Source;
use std::alloc::Global;
use std::marker::Model;

/// A source over bytes in memory, which tells them.
#[derive(Debug, Drop)]
pub struct MemorySource {
    bytes: Vec<u8>,
    at: usize,
    failing: Vec<u64>,
    most: usize,
    reads: u64,
    failures: u64,
}

impl Model for MemorySource {
    ghost use Rattle.std.specs.Prelude.{◌≤◌, drop, vec_len};
    ghost use Rattle.crystal_streams.specs.Memory.{SourceState};

    ghost Value = { SourceState };

    ghost view = { λ s. record {
      left = drop s.at s.bytes.items;
      fails = s.failing.items;
      at_most = s.most;
      reads = s.reads;
      faults = s.failures;
    } };

    ghost invariant = { λ s. (s.at ≤ vec_len s.bytes) × (1 ≤ s.most) };
}

impl MemorySource {
    /// A source of `bytes` whose reads give at most `at_most` of them each. The reads whose
    /// numbers, counted from 1, stand in `fails` fail.
    pub fn new(bytes: Vec<u8>, fails: Vec<u64>, at_most: usize) -> MemorySource
        requires { 1 ≤ at_most }
        ensures { result ≡ record {
          left = bytes.items;
          fails = fails.items;
          at_most = at_most;
          reads = 0;
          faults = 0;
        } }
    {
        MemorySource {
            bytes,
            at: 0,
            failing: fails,
            most: at_most,
            reads: 0,
            failures: 0,
        }
    }
}

impl Source for MemorySource {
    ghost left = { λ s. Some s.left };

    ghost faults = { λ s. s.faults };

    fn read(&mut self, into: &mut [u8]) -> Result<usize, Failed>
        requires { 0 < length into.old }
        ensures bound { IfOk result (λ count. count ≤ length into.new) }
        ensures bytes { ReadConsumes (Some self.old.left) (Some self.new.left) result into.new }
        ensures cause { HasCause self.old.faults self.new.faults result }
        ensures fails { IsErr result ↔ ReadFails self.old }
        ensures count { IfOk result (λ count. count ≡ read_count self.old (length into.old)) }
        ensures after { MatchResult result
            (λ count. self.new ≡ after_read self.old count)
            (λ _. self.new ≡ after_failed_read self.old) }
    {
        self.reads = self.reads.saturating_add(1);
        if self.failing.contains(&self.reads) {
            self.failures = self.failures.saturating_add(1);
            return Err(Failed);
        }
        let rest = &self.bytes[self.at..];
        let count = into.len().min(self.most).min(rest.len());
        into[..count].copy_from_slice(&rest[..count]);
        self.at += count;
        Ok(count)
    }
}

/// A sink in memory, which tells the bytes that it took.
#[derive(Debug, Drop)]
pub struct MemorySink {
    bytes: Vec<u8>,
    capacity: usize,
    failing: Vec<u64>,
    most: usize,
    writes: u64,
    failures: u64,
}

impl Model for MemorySink {
    ghost use Rattle.std.specs.Prelude.{◌≤◌, vec_len, vec_capacity};
    ghost use Rattle.crystal_streams.specs.Memory.{SinkState};

    ghost Value = { SinkState };

    ghost view = { λ s. record {
      taken = s.bytes.items;
      room = s.capacity;
      fails = s.failing.items;
      at_most = s.most;
      writes = s.writes;
      faults = s.failures;
    } };

    ghost invariant = { λ s. (vec_len s.bytes ≤ s.capacity)
        × (s.capacity ≤ vec_capacity s.bytes)
        × (1 ≤ s.most) };
}

impl MemorySink {
    /// A sink for `room` bytes, for which it takes memory here and never later. Its writes take
    /// at most `at_most` bytes each. The writes whose numbers, counted from 1, stand in `fails`
    /// fail, and all writes once the room is used up.
    pub fn new(
        alloc: Global,
        room: usize,
        fails: Vec<u64>,
        at_most: usize,
    ) -> Result<MemorySink, NoMemory>
        requires { 1 ≤ at_most }
        ensures { IfOk result (λ sink. sink ≡ record {
          taken = [];
          room = room;
          fails = fails.items;
          at_most = at_most;
          writes = 0;
          faults = 0;
        }) }
    {
        let bytes = Vec::with_capacity(alloc, room)?;
        Ok(MemorySink {
            bytes,
            capacity: room,
            failing: fails,
            most: at_most,
            writes: 0,
            failures: 0,
        })
    }

    /// The bytes that the sink holds.
    pub fn bytes(&self) -> &[u8]
        ensures value { result.now ≡ self.now.taken }
        ensures bound { length self.now.taken ≤ self.now.room }
    {
        &self.bytes
    }
}

impl Sink for MemorySink {
    ghost taken = { λ s. Some s.taken };

    ghost faults = { λ s. s.faults };

    fn write(&mut self, piece: &[u8]) -> Result<usize, Failed>
        requires { 0 < length piece.now }
        ensures bound { IfOk result (λ count. (1 ≤ count) × (count ≤ length piece.now)) }
        ensures bytes { WriteAppends (Some self.old.taken) (Some self.new.taken) result piece.now }
        ensures cause { HasCause self.old.faults self.new.faults result }
        ensures fails { IsErr result ↔ WriteFails self.old }
        ensures count { IfOk result (λ count. count ≡ write_count self.old (length piece.now)) }
        ensures after { MatchResult result
            (λ count. self.new ≡ after_write self.old (take count piece.now))
            (λ _. self.new ≡ after_failed_write self.old) }
    {
        self.writes = self.writes.saturating_add(1);
        let room = self.capacity - self.bytes.len();
        if room == 0 || self.failing.contains(&self.writes) {
            self.failures = self.failures.saturating_add(1);
            return Err(Failed);
        }
        let count = piece.len().min(self.most).min(room);
        self.bytes.extend_from_slice(&piece[..count]).unwrap();
        Ok(count)
    }
}
