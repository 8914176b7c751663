//! A source of bytes, and the loop that reads one to its end.
ghost use Rattle.std.specs.Prelude.{◌≡◌, ◌<◌, ◌≤◌, List, ℕ, length, IfOk, OnOk, IfSome, IsErrOf};
ghost use Rattle.std.specs.declared.option.Option.{Option};
ghost use Rattle.std.specs.Io.{ReadsAtMost};
ghost use Rattle.std.specs.Io.KnownBytes.{ReadConsumes, IsAtEnd};
ghost use Rattle.px_streams.specs.Causes.{HasCause, Rose};
ghost use Rattle.px_streams.specs.Reading.{TookMore, TookAtMost};

use crate::failed::Failed;
use std::alloc::{AllocError, AllocFailed, Global};

/// The most bytes that `read_whole` takes: 64 MiB.
pub const LIMIT: usize = 67_108_864;

/// How many bytes are asked for at each read.
const BUFFER: usize = 65_536;

/// A source of bytes.
pub trait Source {
    /// The bytes that are left, where they are known.
    ghost left: { Self → Option (List ℕ) };

    /// How often a read has failed.
    ghost faults: { Self → ℕ };

    /// Takes bytes from the front of those left into the front of the buffer, and answers how many.
    /// No byte for a buffer with room is the end. A failed read takes nothing and is counted.
    fn read(&mut self, buffer: &mut [u8]) -> Result<usize, Failed>
        ensures bound { ReadsAtMost result buffer.new }
        ensures bytes { ReadConsumes (left self.old) (left self.new) result buffer.new }
        ensures cause { HasCause (faults self.old) (faults self.new) result };
}

/// Why a source was not read to its end.
#[derive(Clone, Copy, Debug, PartialEq, Eq)]
pub enum ReadError {
    /// No memory was left for the bytes.
    OutOfMemory,
    /// A read failed, and was counted.
    ReadFault,
    /// More than `LIMIT` bytes were taken.
    TooLarge,
}

impl From<AllocError> for ReadError {
    ghost use Rattle.std.specs.Prelude.{◌≡◌};
    ghost use Rattle.px_streams.specs.declared.source.ReadError.TheVariants.{OutOfMemory};

    ghost from_gives = { λ _ e. e ≡ OutOfMemory };

    fn from(_e: AllocError) -> ReadError {
        ReadError::OutOfMemory
    }
}

impl<T: Drop> From<AllocFailed<T>> for ReadError {
    ghost use Rattle.std.specs.Prelude.{◌≡◌};
    ghost use Rattle.px_streams.specs.declared.source.ReadError.TheVariants.{OutOfMemory};

    ghost from_gives = { λ _ e. e ≡ OutOfMemory };

    fn from(_e: AllocFailed<T>) -> ReadError {
        ReadError::OutOfMemory
    }
}

/// All the bytes that a source has left, at most `LIMIT`. `TooLarge` comes where this call took
/// more than that, `ReadFault` where a read failed before; else the only error is out of memory.
pub fn read_whole<S: Source>(alloc: Global, source: &mut S) -> Result<Vec<u8>, ReadError>
    ensures all { IfOk result (λ bytes. IfSome (S.left source.old) (λ whole. bytes.items ≡ whole)) }
    ensures within { IfOk result (λ bytes. length bytes.items ≤ LIMIT) }
    ensures end { OnOk result (IsAtEnd (S.left source.new)) }

    ensures too_large { IsErrOf result ReadError.TooLarge → TookMore (S.left source.old) (S.left source.new) LIMIT }
    ensures fault { IsErrOf result ReadError.ReadFault → Rose (S.faults source.old) (S.faults source.new) }
    ensures fault_within { IsErrOf result ReadError.ReadFault
        → TookAtMost (S.left source.old) (S.left source.new) LIMIT }
    ensures faults_count_up { S.faults source.old ≤ S.faults source.new }
{
    let mut storage = make_buffer(alloc)?;
    let buffer = storage.as_mut_slice();
    let mut bytes = Vec::new(alloc);
    loop {
        match source.read(buffer) {
            Err(_) => return Err(ReadError::ReadFault),
            Ok(0) => return Ok(bytes),
            Ok(count) => {
                if count > LIMIT - bytes.len() {
                    return Err(ReadError::TooLarge);
                }
                bytes.extend_from_slice(&buffer[..count])?;
            }
        }
    }
}

// Its length alone is promised: a list of so many zeros in a proof costs gigabytes.
fn make_buffer(alloc: Global) -> Result<Vec<u8>, AllocError>
    ensures { IfOk result (λ buffer. 0 < length buffer.items) }
{
    vec![in alloc; 0u8; BUFFER]
}
