//! Kernels on columns, and on their buffers: arithmetic, logic, tests for null, comparison, casts, selection.
#![tactic(auto)]

mod arithmetic;
mod arms;
mod casts;
mod comparison;
mod fusion;
mod lengths;
mod logic;
mod operators;
mod row_tests;
mod selection;
mod zeros;

pub use arithmetic::{negate, negate_buffer};
pub use casts::{cast, cast_buffer};
pub use comparison::{compare, compare_buffers};
pub use fusion::{fused, fused_buffers};
pub use logic::{is_not_null, is_null, kleene_and, kleene_or, kleene_xor, negate_bitwise};
pub use operators::{arith, arith_buffers};
pub use selection::{zip_with, zip_with_buffers};
