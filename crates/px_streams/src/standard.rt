//! Standard input and output. What they give and hold is not known to contracts: this is the edge that is
//! trusted.
ghost use Rattle.std.specs.Prelude.{◌≡◌, ◌<◌, ◌≤◌, length, None, OnOk, OnErr, IfOk, IfSome};
ghost use Rattle.std.specs.Io.{ReadsAtMost, WritesAtMost};
ghost use Rattle.std.specs.Io.KnownBytes.{ReadConsumes, WriteAppends};
ghost use Rattle.px_streams.specs.Causes.{HasCause, next_count};

use crate::failed::Failed;
use crate::sink::Sink;
use crate::source::Source;
use std::io;
use std::io::{ErrorKind, Read, Write};
use std::marker::Model;

/// How often a read or a write is tried that a signal interrupts.
const TRIES: u32 = 1024;

/// A source over a reader, as standard input is. Contracts see how many reads have failed. A read
/// that a signal interrupts is tried again, up to 1024 times in all.
#[derive(Drop)]
pub struct StdSource<R> {
    reader: R,
    faults: u64,
}

impl<R> Model for StdSource<R> {
    ghost use Rattle.std.specs.Prelude.{ℕ};

    ghost Value = { ℕ };

    ghost view = { λ s. s.faults };
}

impl<R> StdSource<R> {
    /// A source over the reader, without faults.
    pub fn new(reader: R) -> StdSource<R>
        ensures { result ≡ 0 }
    {
        StdSource { reader, faults: 0 }
    }
}

impl<R: Read> Source for StdSource<R> {
    ghost left = { λ _. None };

    ghost faults = { λ s. s };

    fn read(&mut self, buffer: &mut [u8]) -> Result<usize, Failed>
        ensures bound { ReadsAtMost result buffer.new }
        ensures bytes { ReadConsumes None None result buffer.new }
        ensures cause { HasCause self.old self.new result }

        // Each fault is counted, and nothing else.
        ensures ok { OnOk result (self.new ≡ self.old) }
        ensures err { OnErr result (self.new ≡ next_count self.old) }
    {
        match read_through_signals(&mut self.reader, buffer) {
            Some(count) => Ok(count),
            None => {
                self.faults = self.faults.saturating_add(1);
                Err(Failed {})
            }
        }
    }
}

/// A sink that prints to standard output and flushes after each write. Contracts see how many
/// writes have failed. A write that a signal interrupts is tried again, up to 1024 times in all.
#[derive(Drop)]
pub struct StdSink<R> {
    rt: R,
    faults: u64,
}

impl<R> Model for StdSink<R> {
    ghost use Rattle.std.specs.Prelude.{ℕ};

    ghost Value = { ℕ };

    ghost view = { λ s. s.faults };
}

impl<R> StdSink<R> {
    /// A sink over standard output, without faults.
    pub fn new(rt: R) -> StdSink<R>
        ensures { result ≡ 0 }
    {
        StdSink { rt, faults: 0 }
    }
}

impl<R: Print> Sink for StdSink<R> {
    ghost contents = { λ _. None };

    ghost faults = { λ s. s };

    fn write(&mut self, piece: &[u8]) -> Result<usize, Failed>
        ensures bound { WritesAtMost result piece.now }
        ensures moves { 0 < length piece.now → IfOk result (λ count. 0 < count) }
        ensures bytes { WriteAppends None None result piece.now }
        ensures cause { HasCause self.old self.new result }

        // Each fault is counted, and nothing else.
        ensures ok { OnOk result (self.new ≡ self.old) }
        ensures err { OnErr result (self.new ≡ next_count self.old) }
    {
        let mut out = io::writer(&self.rt);
        let answer = write_through_signals(&mut out, piece);
        let flushed = out.flush();
        match answer {
            Some(count) if flushed.is_ok() && (count > 0 || piece.is_empty()) => Ok(count),
            _ => {
                self.faults = self.faults.saturating_add(1);
                Err(Failed {})
            }
        }
    }
}

/// What a read gives that no signal interrupts, or None where it failed.
fn read_through_signals<R: Read>(reader: &mut R, buffer: &mut [u8]) -> Option<usize>
    ensures { IfSome result (λ count. count ≤ length buffer.new) }
{
    for _ in 0..TRIES {
        match reader.read(buffer) {
            Ok(count) => return Some(count),
            Err(error) if error.kind() == ErrorKind::Interrupted => {}
            Err(_) => return None,
        }
    }
    None
}

/// What a write takes that no signal interrupts, or None where it failed.
fn write_through_signals<W: Write>(out: &mut W, piece: &[u8]) -> Option<usize>
    ensures { IfSome result (λ count. count ≤ length piece.now) }
{
    for _ in 0..TRIES {
        match out.write(piece) {
            Ok(count) => return Some(count),
            Err(error) if error.kind() == ErrorKind::Interrupted => {}
            Err(_) => return None,
        }
    }
    None
}
