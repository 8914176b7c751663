//! Sources and sinks over memory.
ghost use Rattle.std.specs.Prelude.{◌≡◌, ◌<◌, ◌≤◌, ℕ, [], length, take, drop, min, is_err, IsOk, IfOk, OnErr};
ghost use Rattle.std.specs.Prelude.{Some, None};
ghost use Rattle.std.specs.Io.{ReadsAtMost, WritesAtMost};
ghost use Rattle.std.specs.Io.KnownBytes.{ReadConsumes, WriteAppends};
ghost use Rattle.px_base.specs.Answer.{GivesOrMemory};
ghost use Rattle.px_streams.specs.Causes.{HasCause};
ghost use Rattle.px_streams.specs.Memory.{read_fails, after_read, after_failed_read};
ghost use Rattle.px_streams.specs.Memory.{room_left, write_fails, after_write, after_failed_write};

use crate::failed::Failed;
use crate::sink::Sink;
use crate::source::Source;
use px_base::PlanError;
use std::alloc::Global;
use std::marker::Model;

/// A source over bytes whose reads are numbered from 0. Those in `failing` fail and take nothing;
/// each other read gives as many bytes as the buffer holds, or all that are left. The number and
/// the count of faults stop at 2^64 - 1.
#[derive(Drop)]
pub struct MemorySource {
    bytes: Vec<u8>,
    at: usize,
    failing: Vec<u64>,
    next: u64,
    faults: u64,
}

impl Model for MemorySource {
    ghost use Rattle.std.specs.Prelude.{◌≤◌, length, drop};
    ghost use Rattle.px_streams.specs.Memory.{Readable};

    ghost Value = { Readable };

    ghost view = { λ s. record { left = drop s.at s.bytes.items; next = s.next; failing = s.failing.items; faults = s.faults } };

    ghost invariant = { λ s. s.at ≤ length s.bytes.items };
}

impl MemorySource {
    /// A source of a copy of these bytes, whose reads at the listed numbers fail. The only error is
    /// out of memory.
    pub fn new(alloc: Global, bytes: &[u8], failing: &[u64]) -> Result<MemorySource, PlanError>
        ensures { GivesOrMemory result (record { left = bytes.now; next = 0; failing = failing.now; faults = 0 }) }
    {
        Ok(MemorySource {
            bytes: bytes.to_vec(alloc)?,
            at: 0,
            failing: failing.to_vec(alloc)?,
            next: 0,
            faults: 0,
        })
    }

    /// The bytes that are left.
    pub fn left(&self) -> &[u8]
        ensures { result.now ≡ self.now.left }
    {
        &self.bytes[self.at..]
    }
}

impl Source for MemorySource {
    ghost left = { λ s. Some s.left };

    ghost faults = { λ s. s.faults };

    fn read(&mut self, buffer: &mut [u8]) -> Result<usize, Failed>
        ensures bound { ReadsAtMost result buffer.new }
        ensures bytes { ReadConsumes (Some self.old.left) (Some self.new.left) result buffer.new }
        ensures cause { HasCause self.old.faults self.new.faults result }

        // Which reads fail, and how many bytes the others give.
        ensures failed { is_err result ≡ read_fails self.old }
        ensures count { IfOk result (λ count. count ≡ min (length buffer.old) (length self.old.left)) }
        ensures ok { IfOk result (λ count. self.new ≡ after_read self.old count) }
        ensures err { OnErr result (self.new ≡ after_failed_read self.old) }
    {
        let number = self.next;
        self.next = number.saturating_add(1);
        if self.failing.contains(&number) {
            self.faults = self.faults.saturating_add(1);
            return Err(Failed {});
        }
        let count = buffer.len().min(self.bytes.len() - self.at);
        buffer[..count].copy_from_slice(&self.bytes[self.at..self.at + count]);
        self.at += count;
        Ok(count)
    }
}

/// A source over bytes that never fails. Each read gives as many bytes as the buffer holds, or all
/// that are left.
#[derive(Drop)]
pub struct SteadySource {
    bytes: Vec<u8>,
    at: usize,
}

impl Model for SteadySource {
    ghost use Rattle.std.specs.Prelude.{ℕ, List, ◌≤◌, length, drop};

    ghost Value = { List ℕ };

    ghost view = { λ s. drop s.at s.bytes.items };

    ghost invariant = { λ s. s.at ≤ length s.bytes.items };
}

impl SteadySource {
    /// A source of a copy of these bytes. The only error is out of memory.
    pub fn new(alloc: Global, bytes: &[u8]) -> Result<SteadySource, PlanError>
        ensures { GivesOrMemory result bytes.now }
    {
        Ok(SteadySource {
            bytes: bytes.to_vec(alloc)?,
            at: 0,
        })
    }
}

impl Source for SteadySource {
    ghost left = { λ s. Some s };

    ghost faults = { λ _. 0 };

    fn read(&mut self, buffer: &mut [u8]) -> Result<usize, Failed>
        ensures bound { ReadsAtMost result buffer.new }
        ensures bytes { ReadConsumes (Some self.old) (Some self.new) result buffer.new }
        ensures cause { HasCause 0 0 result }

        // No read fails, and each gives what the buffer holds.
        ensures count { result ≡ Ok (min (length buffer.old) (length self.old)) }
        ensures rest { IfOk result (λ count. self.new ≡ drop count self.old) }
    {
        let count = buffer.len().min(self.bytes.len() - self.at);
        buffer[..count].copy_from_slice(&self.bytes[self.at..self.at + count]);
        self.at += count;
        Ok(count)
    }
}

/// A sink with room for so many bytes, taken at the start: a write takes no memory. Writes are
/// numbered from 0. Those in `failing` fail, and so does the write of a piece of which nothing fits;
/// each other write takes what fits. The number and the count of faults stop at 2^64 - 1.
#[derive(Drop)]
pub struct MemorySink {
    bytes: Vec<u8>,
    room: usize,
    failing: Vec<u64>,
    next: u64,
    faults: u64,
}

impl Model for MemorySink {
    ghost use Rattle.std.specs.Prelude.{◌≤◌, length, vec_capacity};
    ghost use Rattle.px_streams.specs.Memory.{Writable};

    ghost Value = { Writable };

    ghost view = { λ s. record { contents = s.bytes.items; room = s.room; next = s.next; failing = s.failing.items; faults = s.faults } };

    ghost invariant = { λ s. (length s.bytes.items ≤ s.room) × (s.room ≤ vec_capacity s.bytes) };
}

impl MemorySink {
    /// An empty sink with room for so many bytes, whose writes at the listed numbers fail. The only
    /// error is out of memory.
    pub fn new(alloc: Global, room: usize, failing: &[u64]) -> Result<MemorySink, PlanError>
        ensures { GivesOrMemory result (record { contents = []; room = room; next = 0; failing = failing.now; faults = 0 }) }
    {
        Ok(MemorySink {
            bytes: Vec::with_capacity(alloc, room)?,
            room,
            failing: failing.to_vec(alloc)?,
            next: 0,
            faults: 0,
        })
    }

    /// The bytes that it holds.
    pub fn contents(&self) -> &[u8]
        ensures { result.now ≡ self.now.contents }
    {
        self.bytes.as_slice()
    }
}

impl Sink for MemorySink {
    ghost contents = { λ s. Some s.contents };

    ghost faults = { λ s. s.faults };

    fn write(&mut self, piece: &[u8]) -> Result<usize, Failed>
        ensures bound { WritesAtMost result piece.now }
        ensures moves { 0 < length piece.now → IfOk result (λ count. 0 < count) }
        ensures bytes { WriteAppends (Some self.old.contents) (Some self.new.contents) result piece.now }
        ensures cause { HasCause self.old.faults self.new.faults result }

        // Which writes fail, and how many bytes the others take.
        ensures failed { is_err result ≡ write_fails self.old (length piece.now) }
        ensures count { IfOk result (λ count. count ≡ min (length piece.now) (room_left self.old)) }
        ensures ok { IfOk result (λ count. self.new ≡ after_write self.old (take count piece.now)) }
        ensures err { OnErr result (self.new ≡ after_failed_write self.old) }
    {
        let number = self.next;
        self.next = number.saturating_add(1);
        let left = self.room - self.bytes.len();
        if (left == 0 && !piece.is_empty()) || self.failing.contains(&number) {
            self.faults = self.faults.saturating_add(1);
            return Err(Failed {});
        }
        let count = piece.len().min(left);
        match self.bytes.extend_from_slice(&piece[..count]) {
            Ok(()) => Ok(count),
            Err(_) => unreachable!("the room was taken at the start"),
        }
    }
}

/// A sink that takes every piece, keeps nothing and never fails.
#[derive(Clone, Copy, Debug)]
pub struct SteadySink {}

impl SteadySink {
    /// Such a sink.
    pub fn new() -> SteadySink {
        SteadySink {}
    }
}

impl Sink for SteadySink {
    ghost contents = { λ _. None };

    ghost faults = { λ _. 0 };

    fn write(&mut self, piece: &[u8]) -> Result<usize, Failed>
        ensures bound { WritesAtMost result piece.now }
        ensures moves { 0 < length piece.now → IfOk result (λ count. 0 < count) }
        ensures bytes { WriteAppends None None result piece.now }
        ensures cause { HasCause 0 0 result }

        // Every write takes the whole piece.
        ensures count { result ≡ Ok (length piece.now) }
    {
        Ok(piece.len())
    }
}
