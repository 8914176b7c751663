//! An arena of nodes.
ghost use Rattle.std.specs.Prelude.{◌≡◌, ℕ, ◌+◌, ◌<◌, ◌++◌, [], ◌∷◌, length, slice_get, slice_set, List, Some, IfOk, OnOk, OnErr};
ghost use Rattle.px_expr.specs.Tree.{Tree, tree, Trees};
ghost use Rattle.px_meaning.specs.Rewriting.{ReplacedAll};
ghost use Rattle.px_arena.specs.Denotes.{root_of, inputs_of, Denotes, DenoteAll, IsIn, Reaches, IsGrown};
ghost use Rattle.px_arena.specs.Runs.{Fits};

use crate::node::{AExpr, Node};
use px_types::{PlanError, Steps};
use std::alloc::Global;
use std::marker::Model;
use std::sync::ledger::Ledger;

/// Nodes by their places. A node may be the input of many others.
#[derive(Drop)]
pub struct Arena {
    items: Vec<AExpr>,
}

impl Model for Arena {
    ghost use Rattle.px_arena.specs.contracts.node.AExpr as node;
    ghost use Rattle.px_arena.specs.declared.node.AExpr.{AExpr};
    ghost use Rattle.std.specs.Coded.{codes};
    ghost use Rattle.std.specs.Prelude.{List};

    ghost Value = { List AExpr };

    ghost coded = { Prim.hlevel (codes, node.the_row.coded) };

    ghost view = { λ a. a.items.items };
}

impl Arena {
    pub fn new(alloc: Global) -> Arena
        ensures { result ≡ [] }
    {
        Arena {
            items: Vec::new(alloc),
        }
    }

    pub fn len(&self) -> usize
        ensures { result ≡ length self.now }
    {
        self.items.len()
    }

    pub fn get(&self, node: Node) -> &AExpr
        requires { node.0 < length self.now }
        ensures { slice_get self.now node.0 ≡ Some result.now }
    {
        &self.items[node.0]
    }

    /// The next node. What the places denote stays, and on a refusal the whole arena.
    pub fn add(&mut self, expr: AExpr) -> Result<Node, PlanError>
        requires { (m : ℕ) → IsIn m (inputs_of expr) → m < length self.old }
        ensures next { IfOk result (λ n. n.0 ≡ length self.old) }
        ensures holds { IfOk result (λ n. slice_get self.new n.0 ≡ Some expr) }
        ensures added { OnOk result (self.new ≡ self.old ++ expr ∷ []) }
        ensures kept { IsGrown self.old self.new }
        ensures denotes { IfOk result (λ n. (us : Trees) → DenoteAll self.old (inputs_of expr) us
            → Denotes self.new n.0 (tree (root_of expr) us)) }
        ensures err { OnErr result ((self.new ≡ self.old) × (result ≡ Err PlanError.OutOfMemory)) }
    {
        let node = Node(self.items.len());
        self.items.push(expr)?;
        Ok(node)
    }

    /// The place holds the node from now on, and the other places stay.
    pub fn replace<L: Ledger>(&mut self, node: Node, expr: AExpr, steps: &mut Steps<L>)
        requires within { node.0 < length self.old }
        requires inputs { (m : ℕ) → IsIn m (inputs_of expr) → m < length self.old }
        requires apart { (m : ℕ) → IsIn m (inputs_of expr) → Reaches self.old m node.0 → ⊥ }
        ensures items { self.new ≡ slice_set self.old node.0 expr }
        ensures other { (n : ℕ) (u : Tree) → (Reaches self.old n node.0 → ⊥) → Denotes self.old n u
            → Denotes self.new n u }
        ensures replaced { (t t' : Tree) → Denotes self.old node.0 t → Fits self.old node.0 expr t'
            → (ns : List ℕ) (us : Trees) → DenoteAll self.old ns us → (vs : Trees) × DenoteAll self.new ns vs
            × ReplacedAll t t' us vs }
        ensures ticks { steps.new ≡ steps.old + 1 }
    {
        self.items[node.0] = expr;
        steps.tick();
    }
}
