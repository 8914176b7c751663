//! Kernels over any number of columns of one type, place by place.
#![tactic(auto)]

mod arms;
mod choices;
mod folds;
mod horizontals;
mod places;
mod sums;

pub use horizontals::{
    all_horizontal, all_horizontal_buffers, any_horizontal, any_horizontal_buffers, coalesce,
    coalesce_buffers, max_horizontal, max_horizontal_buffers, min_horizontal,
    min_horizontal_buffers,
};
pub use sums::{sum_horizontal, sum_horizontal_buffers};
