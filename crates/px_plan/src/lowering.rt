//! From checked expressions to the nodes of an arena.
ghost use Rattle.std.specs.Prelude.{◌≡◌, IfOk, OnErr};
ghost use Rattle.px_expr.specs.Tree.{tree_of};
ghost use Rattle.px_arena.specs.Denotes.{Denotes, DenoteAll, IsGrown};
ghost use Rattle.px_arena.specs.Options.{KeepsOptions, options_of};
ghost use Rattle.px_plan.specs.Optimized.{trees_of};
ghost use Rattle.px_rules.specs.Plan.{places};

use px_arena::{Arena, Node, NodeList};
use px_check::Checked;
use px_types::{List, PlanError};
use std::alloc::Global;

/// A place for the checked expression. What earlier places hold stays, also on a refusal.
pub fn lower(alloc: Global, arena: &mut Arena, checked: &Checked) -> Result<Node, PlanError>
    ensures kept { IsGrown arena.old arena.new }
    ensures denotes { IfOk result (λ n. Denotes arena.new n.0 (tree_of checked.now.tree)) }
    ensures options { IfOk result (λ n. KeepsOptions arena.new n.0 (options_of checked.now.tree)) }
    ensures err { OnErr result (result ≡ Err PlanError.OutOfMemory) }
{
    px_arena::lower(alloc, arena, checked.tree())
}

/// A place for each of the checked expressions, in order.
pub fn lower_all(
    alloc: Global,
    arena: &mut Arena,
    checked: &[Checked],
) -> Result<NodeList, PlanError>
    ensures kept { IsGrown arena.old arena.new }
    ensures denote { IfOk result (λ roots. DenoteAll arena.new (places roots.entries) (trees_of checked.now)) }
    ensures err { OnErr result (result ≡ Err PlanError.OutOfMemory) }
{
    let mut roots = List::new(alloc);
    for one in checked {
        let root = lower(alloc, arena, one)?;
        roots.try_push(root)?;
    }
    Ok(roots)
}
