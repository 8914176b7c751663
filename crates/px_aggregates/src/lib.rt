//! Aggregates of columns and of their buffers: any, all, counts, sum, product, first, last.
#![tactic(auto)]

mod booleans;
mod counts;
mod ends;
mod folds;
mod one_row;
mod sums;

pub use booleans::{all, all_buffer, any, any_buffer, has_false, has_true, true_count};
pub use counts::{count, count_buffer, null_count_buffer, null_count_column};
pub use ends::{first, first_buffer, last, last_buffer};
pub use folds::fold_valid;
pub use one_row::{one_boolean, one_integer, one_string};
pub use sums::{product, product_buffer, sum, sum_buffer};
