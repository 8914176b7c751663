//! Sources and sinks of bytes that count their faults, and the two loops over them.
#![tactic(auto)]

mod failed;
mod memory;
mod sink;
mod source;
mod standard;
#[cfg(test)]
mod tests;

pub use failed::Failed;
pub use memory::{MemorySink, MemorySource, SteadySink, SteadySource};
pub use sink::{Sink, write_whole};
pub use source::{LIMIT, ReadError, Source, read_whole};
pub use standard::{StdSink, StdSource};
