//! The check of expressions against a schema: the checked tree with its type and name, or the first
//! fault.
#![tactic(auto)]

mod check;

pub use check::{check_expr, check_list};
pub use px_coercion::{Checked, CheckedList};
pub use px_expr::{Context, KernelList, PlanContext};
