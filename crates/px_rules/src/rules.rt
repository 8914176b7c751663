//! The rules of the core language, one after the other.
ghost use Rattle.px_meaning.specs.Rewrites.{IsRewrite};
ghost use Rattle.px_rules.specs.RuleLaws.{all_keeps};

use crate::fused::FusedArithmetic;
use crate::rule::OptimizationRule;
use crate::simplify_boolean::SimplifyBooleanRule;
use crate::simplify_expr::SimplifyExprRule;
use px_arena::{AExpr, Arena, Node};
use px_expr::{Plan, PlanContext};
use px_types::PlanError;
use std::alloc::Global;

/// Tries `SimplifyExprRule`, `SimplifyBooleanRule` and `FusedArithmetic`, in this order.
#[derive(Drop)]
pub struct AllRules {}

impl OptimizationRule for AllRules {
    ghost is_rewrite = { IsRewrite };

    fn optimize_expr(
        &mut self,
        alloc: Global,
        arena: &mut Arena,
        node: Node,
        plan: &PlanContext<'_>,
    ) -> Result<Option<AExpr>, PlanError> {
        let mut expr_rule = SimplifyExprRule {};
        match expr_rule.optimize_expr(alloc, arena, node, plan)? {
            Some(expr) => Ok(Some(expr)),
            None => {
                let mut boolean_rule = SimplifyBooleanRule {};
                match boolean_rule.optimize_expr(alloc, arena, node, plan)? {
                    Some(expr) => Ok(Some(expr)),
                    None => {
                        let mut fused_rule = FusedArithmetic {};
                        fused_rule.optimize_expr(alloc, arena, node, plan)
                    }
                }
            }
        }
    }

    ghost keeps = { all_keeps };
}
