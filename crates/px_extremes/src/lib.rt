//! The least and the greatest value of a column, their first places, and the bits of all values.
#![tactic(auto)]

mod arms;
mod bits;
mod booleans;
mod extremes;
mod integers;
mod places;
mod strings;

pub use bits::{bit_reduce, bit_reduce_buffer};
pub use extremes::{
    arg_max, arg_max_buffer, arg_min, arg_min_buffer, max, max_buffer, min, min_buffer,
};
