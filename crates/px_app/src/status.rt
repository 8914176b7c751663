//! How a run ends, as an exit status.

/// The report was written.
pub const ANSWERED: u8 = 0;

/// The expressions have a fault, of themselves or on these columns, whose line was written.
pub const REFUSED: u8 = 1;

/// The bytes are no document.
pub const NO_DOCUMENT: u8 = 2;

/// Out of memory.
pub const NO_MEMORY: u8 = 3;

/// A read failed.
pub const READ_FAULT: u8 = 4;

/// A write failed.
pub const WRITE_FAULT: u8 = 5;

/// The words are neither `select` nor `filter` alone. Nothing was read.
pub const OTHER_WORDS: u8 = 6;

/// There are more than 64 MiB.
pub const TOO_LONG: u8 = 7;
