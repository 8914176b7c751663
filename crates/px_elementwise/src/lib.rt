//! Kernels that go row by row: absolute value, sign and counts of bits, filled nulls, and values beside
//! bounds.
#![tactic(auto)]

mod arms;
mod bits;
mod bounds;
mod numbers;

pub use bits::{bit_count, bit_count_buffer};
pub use bounds::{
    clip, clip_buffers, fill_null, fill_null_buffers, is_between, is_between_buffers,
};
pub use numbers::{abs, abs_buffer, sign, sign_buffer};
