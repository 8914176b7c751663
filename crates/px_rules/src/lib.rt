//! Rewriting of expressions in an arena, by rules that keep what the expressions mean.
#![tactic(auto)]

mod driver;
mod fold_integers;
mod fused;
mod literal_free;
mod output_name;
mod rule;
mod rules;
mod simplify_boolean;
mod simplify_expr;
mod views;

pub use driver::optimize_loop;
pub use fused::FusedArithmetic;
pub use output_name::name_at;
pub use px_expr::{Context, KernelList, PlanContext};
pub use rule::OptimizationRule;
pub use rules::AllRules;
pub use simplify_boolean::SimplifyBooleanRule;
pub use simplify_expr::SimplifyExprRule;
