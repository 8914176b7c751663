//! From expressions to rewritten trees in an arena.
ghost use Rattle.std.specs.Prelude.{◌≡◌, ◌⊎◌, ◌+◌, ◌-◌, ◌^◌, ◌≤◌, min, map, Ok, Err, IfOk, IfErr, OnOk, OnErr, IsOk};
ghost use Rattle.px_expr.specs.Plan.{catalog_of};
ghost use Rattle.px_expr.specs.Tree.{Trees, tree_of};
ghost use Rattle.px_meaning.specs.Check as check;
ghost use Rattle.px_meaning.specs.Rewrites.{IsRewrite};
ghost use Rattle.px_meaning.specs.Rewriting.{Pairwise, AllReach, AreNormal, Moves};
ghost use Rattle.px_meaning.specs.Weight.{weights};
ghost use Rattle.px_arena.specs.Runs.{IsRewritten};
ghost use Rattle.px_plan.specs.Optimized.{trees_of, typed_trees, RootsDenote, FromChecked};
ghost use Rattle.px_rules.specs.Plan.{AreChecked, MeansTheSame, places};

use crate::lowering::lower_all;
use px_arena::{Arena, NodeList};
use px_check::{Checked, check_list};
use px_expr::{Context, Expr, KernelList, Kernels, Plan, PlanContext};
use px_rules::{AllRules, optimize_loop};
use px_types::{PlanError, Schema, Steps};
use std::alloc::Global;
use std::marker::Model;
use std::sync::ledger::Ledger;

/// Rewritten expressions: an arena, and a root of it for each expression, in order.
#[derive(Drop)]
pub struct Optimized {
    arena: Arena,
    roots: NodeList,
    rewrites: u64,
}

impl Model for Optimized {
    ghost use Rattle.px_arena.specs.contracts.node.AExpr as expr;
    ghost use Rattle.px_arena.specs.contracts.node.Node as node;
    ghost use Rattle.px_plan.specs.Optimized.{Rewritten};
    ghost use Rattle.std.specs.Coded.{codes};

    ghost Value = { Rewritten };

    ghost coded = { Prim.hlevel (codes, expr.the_row.coded, node.the_row.coded) };

    ghost view = { λ o. record { arena = o.arena; roots = o.roots.entries; rewrites = o.rewrites } };
}

impl Optimized {
    /// The nodes.
    pub fn arena(&self) -> &Arena
        ensures { result.now ≡ self.now.arena }
    {
        &self.arena
    }

    /// The places of the expressions, in order.
    pub fn roots(&self) -> &NodeList
        ensures { result.now.entries ≡ self.now.roots }
    {
        &self.roots
    }

    /// How many rewrites were made, or the greatest number where there were more.
    pub fn rewrites(&self) -> u64
        ensures { result ≡ self.now.rewrites }
    {
        self.rewrites
    }
}

/// Lowers checked expressions and rewrites them until no rewrite applies.
fn rewrite_all<L: Ledger>(
    alloc: Global,
    plan: &PlanContext<'_>,
    checked: &[Checked],
    steps: &mut Steps<L>,
) -> Result<Optimized, PlanError>
    requires { AreChecked (⟦<PlanContext<'static> as Plan>⟧.catalog plan.now) (trees_of checked.now) }
    ensures ticks { steps.old ≤ steps.new }
    ensures bound { steps.new ≤ steps.old + weights (trees_of checked.now) }
    ensures rewritten { IfOk result (λ o. IsRewritten
        (IsRewrite (⟦<PlanContext<'static> as Plan>⟧.catalog plan.now) plan.now.context) o.arena (places o.roots)
        (trees_of checked.now) (steps.new - steps.old)) }
    ensures normal { IfOk result (λ o. (us : Trees) → RootsDenote o us
        → AreNormal (IsRewrite (⟦<PlanContext<'static> as Plan>⟧.catalog plan.now) plan.now.context) us) }
    ensures count { IfOk result (λ o. o.rewrites ≡ min (steps.new - steps.old) (2 ^ 64 - 1)) }
    ensures err { OnErr result (result ≡ Err PlanError.OutOfMemory) }
{
    let mut arena = Arena::new(alloc);
    let roots = lower_all(alloc, &mut arena, checked)?;
    let mut rules = AllRules {};
    let rewrites = optimize_loop(alloc, &mut arena, &roots, &mut rules, plan, steps)?;
    Ok(Optimized {
        arena,
        roots,
        rewrites,
    })
}

/// Checks the expressions and rewrites the checked trees until no rewrite applies. Each rewrite ticks
/// once. The only errors are those of the check and out of memory.
pub fn optimize<L: Ledger>(
    alloc: Global,
    schema: &Schema,
    exprs: &[Expr],
    context: Context,
    kernels: &KernelList,
    steps: &mut Steps<L>,
) -> Result<Optimized, PlanError>
    ensures checked { OnOk result (IsOk (check.check_list
        (catalog_of schema.now (⟦<KernelList as Kernels>⟧.definitions kernels.now)) context
        (map tree_of exprs.now))) }
    ensures denote { IfOk result (λ o. (us : Trees) × RootsDenote o us) }
    ensures moves { let catalog = catalog_of schema.now (⟦<KernelList as Kernels>⟧.definitions kernels.now) in
        let checked = check.check_list catalog context (map tree_of exprs.now) in
        IfOk result (FromChecked checked (λ ts us. Moves (IsRewrite catalog context) ts us (steps.new - steps.old))) }
    ensures reach { let catalog = catalog_of schema.now (⟦<KernelList as Kernels>⟧.definitions kernels.now) in
        let checked = check.check_list catalog context (map tree_of exprs.now) in
        IfOk result (FromChecked checked (AllReach (IsRewrite catalog context))) }
    ensures normal { let catalog = catalog_of schema.now (⟦<KernelList as Kernels>⟧.definitions kernels.now) in
        IfOk result (λ o. (us : Trees) → RootsDenote o us → AreNormal (IsRewrite catalog context) us) }
    ensures meaning { let catalog = catalog_of schema.now (⟦<KernelList as Kernels>⟧.definitions kernels.now) in
        let checked = check.check_list catalog context (map tree_of exprs.now) in
        IfOk result (FromChecked checked (Pairwise (MeansTheSame catalog context))) }
    ensures lighter { let catalog = catalog_of schema.now (⟦<KernelList as Kernels>⟧.definitions kernels.now) in
        let checked = check.check_list catalog context (map tree_of exprs.now) in
        IfOk result (FromChecked checked (λ ts us. weights us + (steps.new - steps.old) ≤ weights ts)) }
    ensures ticks { steps.old ≤ steps.new }
    ensures bound { let catalog = catalog_of schema.now (⟦<KernelList as Kernels>⟧.definitions kernels.now) in
        let checked = check.check_list catalog context (map tree_of exprs.now) in
        IfOk checked (λ ts. steps.new ≤ steps.old + weights (typed_trees ts)) }
    ensures count { IfOk result (λ o. o.rewrites ≡ min (steps.new - steps.old) (2 ^ 64 - 1)) }
    ensures err { let catalog = catalog_of schema.now (⟦<KernelList as Kernels>⟧.definitions kernels.now) in
        let checked = check.check_list catalog context (map tree_of exprs.now) in
        IfErr result (λ e. (e ≡ PlanError.OutOfMemory) ⊎ (checked ≡ Err e)) }
{
    let plan = PlanContext {
        schema,
        kernels,
        context,
    };
    let checked = match check_list(alloc, &plan, exprs) {
        Err(error) => return Err(error),
        Ok(checked) => checked,
    };
    rewrite_all(alloc, &plan, checked.as_slice(), steps)
}
