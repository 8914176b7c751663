//! Query planning for column expressions: the check, the arena, the rules, and the call that joins them.
#![tactic(auto)]

mod lowering;
mod optimizing;

pub use lowering::lower;
pub use optimizing::{Optimized, optimize};
pub use px_arena::{AExpr, Arena, ExprIR, ExprIRList, IRAggExpr, Node, NodeList, raise};
pub use px_check::{Checked, CheckedList, check_expr, check_list};
pub use px_expr::{Context, KernelList, PlanContext};
pub use px_rules::{
    AllRules, FusedArithmetic, OptimizationRule, SimplifyBooleanRule, SimplifyExprRule,
    optimize_loop,
};
