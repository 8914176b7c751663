//! What columns mean row by row: rows, arithmetic, bits, logic, comparisons, casts, selection, fused forms,
//! lengths and frames as definitions, and their laws as functions that do nothing.
#![tactic(auto)]

mod laws;

pub use laws::{
    columns_are_tested, difference_with_product_fuses, joining_associates, joining_commutes,
    logic_associates, logic_commutes, logic_negates, product_with_difference_fuses,
    product_with_sum_fuses, sum_with_product_fuses,
};
