//! Places are evaluated on a frame.
ghost use Rattle.std.specs.Prelude.{◌≡◌, ◌⊎◌, List, Some, IfOk, IfErr, IsSome};
ghost use Rattle.px_expr.specs.declared.context.Context.TheVariants.{Select};
ghost use Rattle.px_expr.specs.Tree.{Tree};
ghost use Rattle.px_meaning.specs.Mean.{mean_list};
ghost use Rattle.px_rules.specs.Plan.{AreCheckedAt, places};
ghost use Rattle.px_eval.specs.Own.{frame_catalog};
ghost use Rattle.px_eval.specs.Fills.{HasTicked};
ghost use Rattle.px_eval.specs.Evaluated.{DenoteTrees, HasListFault};

use crate::answers::{answers_of, line_up};
use crate::filling::fill_all;
use px_arena::{Arena, Node, NodeList};
use px_column::{ColumnList, Frame};
use px_expr::{Context, KernelList, Kernels};
use px_types::{PlanError, Steps};
use std::alloc::Global;
use std::sync::ledger::Ledger;

/// The columns that the roots mean together, as the context shows them.
pub fn evaluate_in<L: Ledger>(
    alloc: Global,
    arena: &Arena,
    roots: &[Node],
    frame: &Frame,
    kernels: &KernelList,
    context: Context,
    steps: &mut Steps<L>,
) -> Result<ColumnList, PlanError>
    requires { AreCheckedAt (frame_catalog (⟦<KernelList as Kernels>⟧.definitions kernels.now) frame.now) arena.now
        (places roots.now) }
    ensures columns { IfOk result (λ columns. (ts : List Tree) → DenoteTrees arena.now roots.now ts
        → mean_list (⟦<KernelList as Kernels>⟧.definitions kernels.now) frame.now context ts ≡ Some columns.entries) }
    ensures err { IfErr result (λ e. (ts : List Tree) → DenoteTrees arena.now roots.now ts
        → (e ≡ PlanError.OutOfMemory) ⊎ HasListFault
        (⟦<KernelList as Kernels>⟧.definitions kernels.now) frame.now ts e) }
    ensures complete { (ts : List Tree) → DenoteTrees arena.now roots.now ts
        → IsSome (mean_list (⟦<KernelList as Kernels>⟧.definitions kernels.now) frame.now context ts)
        → IfErr result (λ e. e ≡ PlanError.OutOfMemory) }
    ensures ticks { HasTicked arena.now (places roots.now) steps.old steps.new }
{
    let _columns = frame.columns();
    let table = match fill_all(alloc, arena, roots, frame, kernels, steps) {
        Ok(table) => table,
        Err(e) => return Err(e),
    };
    let answers = match answers_of(alloc, arena, roots, context, &table) {
        Ok(answers) => answers,
        Err(e) => return Err(e),
    };
    // What only the table has goes now, and an answer that no other shares is not copied.
    drop(table);
    line_up(alloc, answers)
}

/// The columns that the roots mean together: each under its name, with its one row repeated where
/// another has more. The errors are out of memory, a fault that a root has on this frame, and
/// `ShapeMismatch` where the lengths do not broadcast. A place that several roots reach is evaluated
/// once, and the steps rise by no more than the places that are reached.
pub fn evaluate<L: Ledger>(
    alloc: Global,
    arena: &Arena,
    roots: &NodeList,
    frame: &Frame,
    kernels: &KernelList,
    steps: &mut Steps<L>,
) -> Result<ColumnList, PlanError>
    requires { AreCheckedAt (frame_catalog (⟦<KernelList as Kernels>⟧.definitions kernels.now) frame.now) arena.now
        (places roots.now.entries) }
    ensures columns { IfOk result (λ columns. (ts : List Tree) → DenoteTrees arena.now roots.now.entries ts
        → mean_list (⟦<KernelList as Kernels>⟧.definitions kernels.now) frame.now Select ts ≡ Some columns.entries) }
    ensures err { IfErr result (λ e. (ts : List Tree) → DenoteTrees arena.now roots.now.entries ts
        → (e ≡ PlanError.OutOfMemory) ⊎ HasListFault
        (⟦<KernelList as Kernels>⟧.definitions kernels.now) frame.now ts e) }
    ensures complete { (ts : List Tree) → DenoteTrees arena.now roots.now.entries ts
        → IsSome (mean_list (⟦<KernelList as Kernels>⟧.definitions kernels.now) frame.now Select ts)
        → IfErr result (λ e. e ≡ PlanError.OutOfMemory) }
    ensures ticks { HasTicked arena.now (places roots.now.entries) steps.old steps.new }
{
    evaluate_in(
        alloc,
        arena,
        roots.as_slice(),
        frame,
        kernels,
        Context::Select,
        steps,
    )
}
