//! One node over checked inputs: the type to which its inputs unite, their casts to it, the node's own
//! type and name, or its fault.
#![tactic(auto)]

mod checked;
mod found;
mod literals;
mod name;
mod nodes;
mod types;
mod unite;

pub use checked::{Checked, CheckedList};
pub use found::{Found, Operand};
pub use nodes::{alias, binary, cast, column, function, literal, ternary, with_default_type};
