//! The name of what a place means.
ghost use Rattle.std.specs.Prelude.{◌≡◌, option_map, OnErr};
ghost use Rattle.px_arena.specs.declared.node.Node.{Node};
ghost use Rattle.px_base.specs.Answer.{GivesOrMemory};
ghost use Rattle.px_expr.specs.Tree.{Tree};
ghost use Rattle.px_meaning.specs.Names.{name};
ghost use Rattle.px_arena.specs.Denotes.{Denotes};
ghost use Rattle.px_rules.specs.Fusion.{name_input, own_name};

use px_arena::{AExpr, Arena, Node};
use px_expr::LiteralValue;
use px_types::{PlanError, SmallStr};
use std::alloc::Global;

/// The place whose name the node takes.
fn name_input(expr: &AExpr) -> Option<Node>
    ensures { option_map (λ (n : Node). n.0) result ≡ name_input expr.now }
{
    match expr {
        AExpr::Alias(_, _) | AExpr::Column(_) | AExpr::Literal(_) | AExpr::Len => None,
        AExpr::Ternary { truthy, .. } => Some(*truthy),
        _ => {
            if expr.input_count() == 0 {
                None
            } else {
                Some(expr.input(0))
            }
        }
    }
}

/// The name of a node that takes none of its inputs' names.
fn own_name(alloc: Global, expr: &AExpr) -> Result<SmallStr, PlanError>
    ensures { GivesOrMemory result (own_name expr.now) }
{
    match expr {
        AExpr::Alias(_, name) | AExpr::Column(name) => name.try_clone(alloc),
        AExpr::Literal(LiteralValue::Series(column)) => column.name().try_clone(alloc),
        AExpr::Literal(_) => SmallStr::new(alloc, "literal"),
        AExpr::Len => SmallStr::new(alloc, "len"),
        _ => SmallStr::new(alloc, ""),
    }
}

/// The name of what the place means.
pub fn name_at(alloc: Global, arena: &Arena, node: Node) -> Result<SmallStr, PlanError>
    requires { (t : Tree) × Denotes arena.now node.0 t }
    ensures name { (t : Tree) → Denotes arena.now node.0 t → GivesOrMemory result (name t) }
    ensures err { OnErr result (result ≡ Err PlanError.OutOfMemory) }
{
    let expr = arena.get(node);
    match name_input(expr) {
        Some(input) => name_at(alloc, arena, input),
        None => own_name(alloc, expr),
    }
}
