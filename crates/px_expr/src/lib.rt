//! Column expressions: what a user writes, before any check.
#![tactic(auto)]

mod build;
mod clone;
mod context;
mod expr;
mod kernel;
mod literal;
mod plan;

pub use build::binary_expr;
pub use context::Context;
pub use expr::{AggExpr, Excluded, ExcludedList, Expr, ExprList, IndexList, NameList};
pub use kernel::{ColumnsUdf, KernelList, Kernels};
pub use literal::{ByteList, LiteralValue};
pub use plan::{Plan, PlanContext};
