//! What a number stands for where C and px meet.

/// The context `select`.
pub const SELECT: u32 = 0;

/// The context `filter`.
pub const FILTER: u32 = 1;

/// The status of a call whose buffer is shorter than the reply.
pub const TOO_SHORT: u8 = 5;

/// The status of a call whose context is neither `SELECT` nor `FILTER`.
pub const OTHER_CONTEXT: u8 = 6;

/// The version of px as 0xMMmmpp: major, minor, patch.
pub const VERSION: u32 = 0x00_01_00;
