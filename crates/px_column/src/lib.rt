//! Columns of values that may be null, frames of them, and broadcasting.
#![tactic(auto)]

mod broadcast;
mod buffer;
mod column;
mod frame;
mod same;

pub use broadcast::{join_lengths, stretch};
pub use buffer::Buffer;
pub use column::{Column, Series};
pub use frame::{ColumnList, Frame};
