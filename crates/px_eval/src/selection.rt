//! Expressions selected from a frame.
ghost use Rattle.std.specs.Prelude.{◌≡◌, ◌⊎◌, ◌-◌, ◌≤◌, List, map, Ok, Some, IfOk, IfErr, OnOk, IsOk, IsSome};
ghost use Rattle.px_expr.specs.Tree.{Tree, trees, tree_of};
ghost use Rattle.px_meaning.specs.Check as check;
ghost use Rattle.px_meaning.specs.Mean.{mean_list};
ghost use Rattle.px_meaning.specs.Rewrites.{IsRewrite};
ghost use Rattle.px_meaning.specs.Rewriting.{Pairwise, AllReach, AreNormal};
ghost use Rattle.px_eval.specs.Own.{frame_catalog};
ghost use Rattle.px_rules.specs.Plan.{AreCheckedAt, places};
ghost use Rattle.px_eval.specs.Evaluated.{DenoteTrees, HasListFault};
ghost use Rattle.px_eval.specs.Fills.{HasTicked};
ghost use Rattle.px_eval.specs.Selected.{answered, OnChecked, MeansTheSame, IsCounted, IsRefusal};

use crate::evaluation::evaluate_in;
use px_arena::{Arena, Node, raise};
use px_column::{ColumnList, Frame};
use px_expr::{Context, Expr, ExprList, KernelList, Kernels};
use px_plan::{Optimized, optimize};
use px_types::{PlanError, Steps};
use std::alloc::Global;
use std::marker::Model;
use std::sync::ledger::Ledger;

/// The columns of a selection, the rewritten expressions, and how many rewrites were made.
#[derive(Drop)]
pub struct Collected {
    columns: ColumnList,
    trees: ExprList,
    rewrites: u64,
}

impl Model for Collected {
    ghost use Rattle.px_expr.specs.contracts.expr.Expr as expr;
    ghost use Rattle.px_eval.specs.Selected.{Selected};
    ghost use Rattle.std.specs.Coded.{codes};

    ghost Value = { Selected };

    ghost coded = { Prim.hlevel (codes, expr.the_row.coded) };

    ghost view = { λ c. record { columns = c.columns.entries; exprs = c.trees.entries; rewrites = c.rewrites } };
}

impl Collected {
    /// The columns, all of one length. Masks have no names.
    pub fn columns(&self) -> &ColumnList
        ensures { result.now.entries ≡ self.now.columns }
    {
        &self.columns
    }

    /// The rewritten expressions, in order.
    pub fn trees(&self) -> &ExprList
        ensures { result.now.entries ≡ self.now.exprs }
    {
        &self.trees
    }

    /// How many rewrites were made, or the greatest number where there were more.
    pub fn rewrites(&self) -> u64
        ensures { result ≡ self.now.rewrites }
    {
        self.rewrites
    }
}

/// The expressions that the roots denote, in order.
fn raise_all(alloc: Global, arena: &Arena, roots: &[Node]) -> Result<ExprList, PlanError>
    requires { (ts : List Tree) × DenoteTrees arena.now roots.now ts }
    ensures trees { IfOk result (λ exprs. DenoteTrees arena.now roots.now (map tree_of exprs.entries)) }
    ensures err { IfErr result (λ e. e ≡ PlanError.OutOfMemory) }
{
    let mut exprs = ExprList::new(alloc);
    for i in 0..roots.len() {
        match raise(alloc, arena, roots[i]) {
            Ok(expr) => exprs.try_push(expr)?,
            Err(e) => return Err(e),
        }
    }
    Ok(exprs)
}

/// What the rewritten expressions mean on the frame, and the expressions.
fn collect<L: Ledger>(
    alloc: Global,
    frame: &Frame,
    context: Context,
    kernels: &KernelList,
    optimized: &Optimized,
    steps: &mut Steps<L>,
) -> Result<Collected, PlanError>
    requires { AreCheckedAt (frame_catalog
        (⟦<KernelList as Kernels>⟧.definitions kernels.now) frame.now) optimized.now.arena
        (places optimized.now.roots) }
    ensures trees { IfOk result (λ s. DenoteTrees optimized.now.arena optimized.now.roots (answered s)) }
    ensures columns { IfOk result (λ s. mean_list
        (⟦<KernelList as Kernels>⟧.definitions kernels.now) frame.now context (answered s) ≡ Some s.columns) }
    ensures rewrites { IfOk result (λ s. s.rewrites ≡ optimized.now.rewrites) }
    ensures err { IfErr result (λ e. (ts : List Tree) → DenoteTrees optimized.now.arena optimized.now.roots ts
        → (e ≡ PlanError.OutOfMemory) ⊎ HasListFault
        (⟦<KernelList as Kernels>⟧.definitions kernels.now) frame.now ts e) }
    ensures complete { (ts : List Tree) → DenoteTrees optimized.now.arena optimized.now.roots ts
        → IsSome (mean_list (⟦<KernelList as Kernels>⟧.definitions kernels.now) frame.now context ts)
        → IfErr result (λ e. e ≡ PlanError.OutOfMemory) }
    ensures ticks { HasTicked optimized.now.arena (places optimized.now.roots) steps.old steps.new }
{
    let arena = optimized.arena();
    let roots = optimized.roots().as_slice();
    let columns = match evaluate_in(alloc, arena, roots, frame, kernels, context, steps) {
        Ok(columns) => columns,
        Err(e) => return Err(e),
    };
    let trees = match raise_all(alloc, arena, roots) {
        Ok(trees) => trees,
        Err(e) => return Err(e),
    };
    Ok(Collected {
        columns,
        trees,
        rewrites: optimized.rewrites(),
    })
}

/// Checks the expressions under the frame's schema, rewrites them until no rewrite applies, and
/// evaluates them on the frame. In a select each answers a column under its name, in a filter a mask
/// without a name. The first fault of the check comes before any evaluation. Later errors are faults
/// that a checked expression has on this frame, and `ShapeMismatch` where the lengths do not broadcast.
pub fn run_select<L: Ledger>(
    alloc: Global,
    frame: &Frame,
    exprs: &[Expr],
    context: Context,
    kernels: &KernelList,
    steps: &mut Steps<L>,
) -> Result<Collected, PlanError>
    ensures checked { let catalog = frame_catalog (⟦<KernelList as Kernels>⟧.definitions kernels.now) frame.now in
        OnOk result (IsOk (check.check_list catalog context (map tree_of exprs.now))) }
    ensures columns { let catalog = frame_catalog (⟦<KernelList as Kernels>⟧.definitions kernels.now) frame.now in
        let checked = check.check_list catalog context (map tree_of exprs.now) in
        IfOk result (λ s. OnChecked checked (λ ts. mean_list catalog.kernels frame.now context ts ≡ Some s.columns)) }
    ensures reach { let catalog = frame_catalog (⟦<KernelList as Kernels>⟧.definitions kernels.now) frame.now in
        let checked = check.check_list catalog context (map tree_of exprs.now) in
        IfOk result (λ s. OnChecked checked (λ ts. AllReach (IsRewrite catalog context) (trees ts) (trees (answered s)))) }
    ensures normal { let catalog = frame_catalog (⟦<KernelList as Kernels>⟧.definitions kernels.now) frame.now in
        IfOk result (λ s. AreNormal (IsRewrite catalog context) (trees (answered s))) }
    ensures meaning { let catalog = frame_catalog (⟦<KernelList as Kernels>⟧.definitions kernels.now) frame.now in
        let checked = check.check_list catalog context (map tree_of exprs.now) in
        IfOk result (λ s. OnChecked checked (λ ts. Pairwise (MeansTheSame catalog context) (trees ts) (trees (answered s)))) }
    ensures rewrites { let catalog = frame_catalog (⟦<KernelList as Kernels>⟧.definitions kernels.now) frame.now in
        let checked = check.check_list catalog context (map tree_of exprs.now) in
        IfOk result (λ s. OnChecked checked (λ ts. IsCounted (IsRewrite catalog context) ts (answered s) s.rewrites (steps.new - steps.old))) }
    ensures ticks { steps.old ≤ steps.new }
    ensures err { let catalog = frame_catalog (⟦<KernelList as Kernels>⟧.definitions kernels.now) frame.now in
        IfErr result (λ e. IsRefusal catalog frame.now (check.check_list catalog context (map tree_of exprs.now)) e) }
    ensures complete { let catalog = frame_catalog (⟦<KernelList as Kernels>⟧.definitions kernels.now) frame.now in
        let checked = check.check_list catalog context (map tree_of exprs.now) in
        OnChecked checked (λ ts. IsSome (mean_list catalog.kernels frame.now context ts) → IfErr result (λ e. e ≡ PlanError.OutOfMemory)) }
{
    let optimized = match optimize(alloc, frame.schema(), exprs, context, kernels, steps) {
        Ok(optimized) => optimized,
        Err(e) => return Err(e),
    };
    collect(alloc, frame, context, kernels, &optimized, steps)
}
