//! Rewriting until no rewrite applies.
ghost use Rattle.std.specs.Prelude.{◌≡◌, ℕ, ◌+◌, ◌<◌, ◌≤◌, ◌^◌, ◌-◌, min, IfOk, OnOk, OnErr};
ghost use Rattle.px_expr.specs.Tree.{Tree, Trees};
ghost use Rattle.px_meaning.specs.Rewriting.{HasNoRewrite, IsNormal, AreNormal};
ghost use Rattle.px_arena.specs.Denotes.{Denotes, DenoteAll};
ghost use Rattle.px_arena.specs.Runs.{Runs, ListRuns};
ghost use Rattle.px_rules.specs.Plan.{IsCheckedAt, AreCheckedAt, KeepMeanings, places};

use crate::rule::OptimizationRule;
use px_arena::{Arena, Node, NodeList};
use px_expr::{Plan, PlanContext};
use px_types::{PlanError, Steps};
use std::alloc::Global;
use std::sync::ledger::Ledger;

/// Replaces the place until no rewrite has its tree on the left.
fn settle<R: OptimizationRule, L: Ledger>(
    alloc: Global,
    arena: &mut Arena,
    node: Node,
    rules: &mut R,
    plan: &PlanContext<'_>,
    steps: &mut Steps<L>,
) -> Result<u64, PlanError>
    requires { IsCheckedAt (⟦<PlanContext<'static> as Plan>⟧.catalog plan.now) arena.old node.0 }
    ensures runs { (r : ℕ) × (steps.new ≡ steps.old + r)
        × Runs (R.is_rewrite (⟦<PlanContext<'static> as Plan>⟧.catalog plan.now) plan.now.context) node.0 arena.old arena.new r }
    ensures count { IfOk result (λ n. n ≡ min (steps.new - steps.old) (2 ^ 64 - 1)) }
    ensures normal { OnOk result ((t : Tree) → Denotes arena.new node.0 t
        → HasNoRewrite (R.is_rewrite (⟦<PlanContext<'static> as Plan>⟧.catalog plan.now) plan.now.context) t) }
    ensures err { OnErr result (result ≡ Err PlanError.OutOfMemory) }
{
    let mut count: u64 = 0;
    while let Some(expr) = rules.optimize_expr(alloc, arena, node, plan)? {
        arena.replace(node, expr, steps);
        count = count.saturating_add(1);
    }
    Ok(count)
}

/// Settles the place and then visits its inputs from left to right.
fn visit<R: OptimizationRule, L: Ledger>(
    alloc: Global,
    arena: &mut Arena,
    node: Node,
    rules: &mut R,
    plan: &PlanContext<'_>,
    steps: &mut Steps<L>,
) -> Result<u64, PlanError>
    requires { IsCheckedAt (⟦<PlanContext<'static> as Plan>⟧.catalog plan.now) arena.old node.0 }
    ensures runs { (r : ℕ) × (steps.new ≡ steps.old + r)
        × Runs (R.is_rewrite (⟦<PlanContext<'static> as Plan>⟧.catalog plan.now) plan.now.context) node.0 arena.old arena.new r }
    ensures count { IfOk result (λ n. n ≡ min (steps.new - steps.old) (2 ^ 64 - 1)) }
    ensures normal { OnOk result (steps.new ≡ steps.old → (t : Tree) → Denotes arena.new node.0 t
        → IsNormal (R.is_rewrite (⟦<PlanContext<'static> as Plan>⟧.catalog plan.now) plan.now.context) t) }
    ensures err { OnErr result (result ≡ Err PlanError.OutOfMemory) }
{
    let mut count = settle(alloc, arena, node, rules, plan, steps)?;
    let inputs = arena.get(node).input_count();
    for i in 0..inputs {
        let input = arena.get(node).input(i);
        let more = visit(alloc, arena, input, rules, plan, steps)?;
        count = count.saturating_add(more);
    }
    Ok(count)
}

/// Visits the roots in order.
fn walk<R: OptimizationRule, L: Ledger>(
    alloc: Global,
    arena: &mut Arena,
    roots: &[Node],
    rules: &mut R,
    plan: &PlanContext<'_>,
    steps: &mut Steps<L>,
) -> Result<u64, PlanError>
    requires { AreCheckedAt (⟦<PlanContext<'static> as Plan>⟧.catalog plan.now) arena.old (places roots.now) }
    ensures runs { (r : ℕ) × (steps.new ≡ steps.old + r)
        × ListRuns (R.is_rewrite (⟦<PlanContext<'static> as Plan>⟧.catalog plan.now) plan.now.context)
        (places roots.now) arena.old arena.new r }
    ensures count { IfOk result (λ n. n ≡ min (steps.new - steps.old) (2 ^ 64 - 1)) }
    ensures normal { OnOk result (steps.new ≡ steps.old → (us : Trees) → DenoteAll arena.new (places roots.now) us
        → AreNormal (R.is_rewrite (⟦<PlanContext<'static> as Plan>⟧.catalog plan.now) plan.now.context) us) }
    ensures err { OnErr result (result ≡ Err PlanError.OutOfMemory) }
{
    let mut count: u64 = 0;
    for root in roots {
        let more = visit(alloc, arena, *root, rules, plan, steps)?;
        count = count.saturating_add(more);
    }
    Ok(count)
}

/// Walks over the roots until a walk replaces nothing.
fn walks<R: OptimizationRule, L: Ledger>(
    alloc: Global,
    arena: &mut Arena,
    roots: &[Node],
    rules: &mut R,
    plan: &PlanContext<'_>,
    steps: &mut Steps<L>,
) -> Result<u64, PlanError>
    requires { AreCheckedAt (⟦<PlanContext<'static> as Plan>⟧.catalog plan.now) arena.old (places roots.now) }
    ensures runs { (r : ℕ) × (steps.new ≡ steps.old + r)
        × ListRuns (R.is_rewrite (⟦<PlanContext<'static> as Plan>⟧.catalog plan.now) plan.now.context)
        (places roots.now) arena.old arena.new r }
    ensures count { IfOk result (λ n. n ≡ min (steps.new - steps.old) (2 ^ 64 - 1)) }
    ensures normal { OnOk result ((us : Trees) → DenoteAll arena.new (places roots.now) us
        → AreNormal (R.is_rewrite (⟦<PlanContext<'static> as Plan>⟧.catalog plan.now) plan.now.context) us) }
    ensures err { OnErr result (result ≡ Err PlanError.OutOfMemory) }
{
    let mut count: u64 = 0;
    loop {
        let more = walk(alloc, arena, roots, rules, plan, steps)?;
        count = count.saturating_add(more);
        if more == 0 {
            return Ok(count);
        }
    }
}

/// Walks over the roots until a walk replaces nothing, and answers how many replacements were made, or
/// the greatest number where there were more. Each replacement ticks once. Also after a refusal each
/// root denotes a tree that its former tree reaches, and that means the same.
pub fn optimize_loop<R: OptimizationRule, L: Ledger>(
    alloc: Global,
    arena: &mut Arena,
    roots: &NodeList,
    rules: &mut R,
    plan: &PlanContext<'_>,
    steps: &mut Steps<L>,
) -> Result<u64, PlanError>
    requires { AreCheckedAt (⟦<PlanContext<'static> as Plan>⟧.catalog plan.now) arena.old (places roots.now.entries) }
    ensures runs { (r : ℕ) × (steps.new ≡ steps.old + r)
        × ListRuns (R.is_rewrite (⟦<PlanContext<'static> as Plan>⟧.catalog plan.now) plan.now.context)
        (places roots.now.entries) arena.old arena.new r }
    ensures count { IfOk result (λ n. n ≡ min (steps.new - steps.old) (2 ^ 64 - 1)) }
    ensures meaning { KeepMeanings (⟦<PlanContext<'static> as Plan>⟧.catalog plan.now) plan.now.context
        (places roots.now.entries) arena.old arena.new }
    ensures normal { OnOk result ((us : Trees) → DenoteAll arena.new (places roots.now.entries) us
        → AreNormal (R.is_rewrite (⟦<PlanContext<'static> as Plan>⟧.catalog plan.now) plan.now.context) us) }
    ensures err { OnErr result (result ≡ Err PlanError.OutOfMemory) }
{
    walks(alloc, arena, roots.as_slice(), rules, plan, steps)
}
