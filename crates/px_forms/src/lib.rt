//! Expressions as JSON values. The forms are our own: an object of one key for each kind of
//! expression, with its parts in a list.
#![tactic(auto)]

mod build;
mod form;
mod laws;
mod literal;
mod names;
mod operator;
mod read;
mod write;

pub use laws::checked_trees_have_forms;
pub use read::{expr_of_value, exprs_of_values};
pub use write::{value_of_expr, values_of_exprs};
