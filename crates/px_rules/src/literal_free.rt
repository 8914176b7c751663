//! Whether a literal stands at or below a place.
ghost use Rattle.std.specs.Prelude.{◌≡◌, ◌&&◌};
ghost use Rattle.px_expr.specs.Tree.{Tree};
ghost use Rattle.px_arena.specs.Denotes.{Denotes};
ghost use Rattle.px_rules.specs.Fusion.{is_literal_free};

use crate::views::is_literal;
use px_arena::{Arena, Node};

/// Whether no literal stands at the place or below it.
fn is_literal_free(arena: &Arena, node: Node) -> bool
    requires { (t : Tree) × Denotes arena.now node.0 t }
    ensures { (t : Tree) → Denotes arena.now node.0 t → result ≡ is_literal_free t }
{
    let expr = arena.get(node);
    if is_literal(expr) {
        return false;
    }
    let inputs = expr.input_count();
    for i in 0..inputs {
        if !is_literal_free(arena, expr.input(i)) {
            return false;
        }
    }
    true
}

/// Whether no literal stands at or below either place.
pub fn both_literal_free(arena: &Arena, left: Node, right: Node) -> bool
    requires left { (t : Tree) × Denotes arena.now left.0 t }
    requires right { (u : Tree) × Denotes arena.now right.0 u }
    ensures { (t : Tree) → (u : Tree) → Denotes arena.now left.0 t → Denotes arena.now right.0 u
        → result ≡ (is_literal_free t && is_literal_free u) }
{
    if is_literal_free(arena, left) {
        is_literal_free(arena, right)
    } else {
        false
    }
}
