//! Columns of tests as plain data: how they are made, and whether an answer is the wanted one.
#![tactic(auto)]

mod columns;
mod operands;
mod runs;

pub use columns::{Rows, Want, agrees, column, fault, wrong_call};
pub use operands::{is_boolean, is_boolean_or_integer};
pub use runs::{Run, Scalar, is_scalar, run_column};
