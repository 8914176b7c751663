//! What a rewriting rule promises.
ghost use Rattle.std.specs.Prelude.{◌≡◌, IfOk, OnErr};
ghost use Rattle.px_expr.specs.declared.context.Context.{Context};
ghost use Rattle.px_expr.specs.Tree.{Tree};
ghost use Rattle.px_expr.specs.Plan.{Catalog};
ghost use Rattle.px_meaning.specs.Laws.{KeepsMeaning};
ghost use Rattle.px_arena.specs.Denotes.{IsGrown};
ghost use Rattle.px_arena.specs.Runs.{Offers};
ghost use Rattle.px_rules.specs.MadeOptions.{KeepsOptions};
ghost use Rattle.px_rules.specs.Plan.{IsCheckedAt};

use px_arena::{AExpr, Arena, Node};
use px_expr::{Plan, PlanContext};
use px_types::PlanError;
use std::alloc::Global;

pub trait OptimizationRule {
    /// The rewrites of the rule, as trees before and after, under a catalog and in a context. No call
    /// changes them.
    ghost is_rewrite: { Catalog → Context → Tree → Tree → Type 0 };

    /// A new node for the place, or none exactly where no rewrite has the place's tree on its left. What
    /// earlier places hold stays, also on a refusal, and without an answer nothing is added. A node that
    /// is copied keeps its options, a `not` that is made takes those of the `not` at the place, a null
    /// test those of the function below it, and a fused function has its own.
    fn optimize_expr(
        &mut self,
        alloc: Global,
        arena: &mut Arena,
        node: Node,
        plan: &PlanContext<'_>,
    ) -> Result<Option<AExpr>, PlanError>
        requires { IsCheckedAt (⟦<PlanContext<'static> as Plan>⟧.catalog plan.now) arena.old node.0 }
        ensures kept { IsGrown arena.old arena.new }
        ensures answer { IfOk result (Offers
            (is_rewrite (⟦<PlanContext<'static> as Plan>⟧.catalog plan.now) plan.now.context) arena.old arena.new node.0) }
        ensures options { IfOk result (KeepsOptions arena.old arena.new node.0) }
        ensures err { OnErr result (result ≡ Err PlanError.OutOfMemory) };

    /// Each rewrite keeps the type, on every fitting frame the rows, in a select the name, and adds no
    /// fault; and it lowers the weight.
    ghost keeps: { (c : Catalog) (context : Context) → KeepsMeaning c context (is_rewrite c context) };
}
