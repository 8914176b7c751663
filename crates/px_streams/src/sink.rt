//! A sink of bytes, and the loop that writes a whole slice.
ghost use Rattle.std.specs.Prelude.{◌≡◌, ◌<◌, ◌≤◌, List, ℕ, length, take, IfOk, OnOk, OnErr};
ghost use Rattle.std.specs.declared.option.Option.{Option};
ghost use Rattle.std.specs.Io.{WritesAtMost};
ghost use Rattle.std.specs.Io.KnownBytes.{WriteAppends, Appends};
ghost use Rattle.px_streams.specs.Causes.{HasCause};

use crate::failed::Failed;

/// A sink of bytes.
pub trait Sink {
    /// The bytes that it holds, where they are known.
    ghost contents: { Self → Option (List ℕ) };

    /// How often a write has failed.
    ghost faults: { Self → ℕ };

    /// Puts bytes from the front of the piece at the end of those held, and answers how many: at
    /// least one where the piece has one. A failed write puts nothing and is counted.
    fn write(&mut self, piece: &[u8]) -> Result<usize, Failed>
        ensures bound { WritesAtMost result piece.now }
        ensures moves { 0 < length piece.now → IfOk result (λ count. 0 < count) }
        ensures bytes { WriteAppends (contents self.old) (contents self.new) result piece.now }
        ensures cause { HasCause (faults self.old) (faults self.new) result };
}

/// Writes all the bytes. After an error, a part at the front of them was written, and not all, and
/// a fault was counted.
pub fn write_whole<K: Sink>(sink: &mut K, bytes: &[u8]) -> Result<(), Failed>
    ensures all { OnOk result (Appends (K.contents sink.old) (K.contents sink.new) bytes.now) }
    ensures part { OnErr result ((count : ℕ) × (count < length bytes.now)
        × Appends (K.contents sink.old) (K.contents sink.new) (take count bytes.now)) }
    ensures cause { HasCause (K.faults sink.old) (K.faults sink.new) result }
{
    let mut written = 0;
    while written < bytes.len() {
        written += sink.write(&bytes[written..])?;
    }
    Ok(())
}
