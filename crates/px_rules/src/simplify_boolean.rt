//! Boolean literals beside `And` and `Or` are dropped, and a minus over a literal is taken in.
ghost use Rattle.std.specs.Prelude.{◌≡◌, IfOk, OnErr, neg_ℤ};
ghost use Rattle.px_types.specs.Integers.{into};
ghost use Rattle.px_arena.specs.Runs.{Offers};
ghost use Rattle.px_meaning.specs.Literals.{literal_of};
ghost use Rattle.px_rules.specs.Booleans.{absorbing, decided, in_filter};
ghost use Rattle.px_rules.specs.Folding.{negated_literal};
ghost use Rattle.px_rules.specs.Groups.{IsRewriteIn, IsRewriteOf, boolean_operands, literal_negations, boolean_rule};
ghost use Rattle.px_rules.specs.MadeOptions.{KeepsOptions};
ghost use Rattle.px_rules.specs.Plan.{IsCheckedAt};
ghost use Rattle.px_rules.specs.RuleLaws.{rule_keeps};

use crate::fold_integers::FoldInteger;
use crate::rule::OptimizationRule;
use crate::views::{binary_of, boolean_literal_of, is_scalar_literal, literal_of, negate_of};
use px_arena::{AExpr, Arena, Node};
use px_expr::{Context, LiteralValue, Plan, PlanContext};
use px_types::{Operator, PlanError};
use std::alloc::Global;

/// What a Boolean literal beside an operator decides.
pub enum Outcome {
    /// The other operand is the answer.
    Other,
    /// The Boolean literal is the answer.
    Absorbed,
}

/// The Boolean that decides the operator alone.
fn absorbing(op: Operator) -> Option<bool>
    ensures { result ≡ absorbing op }
{
    match op {
        Operator::And => Some(false),
        Operator::Or => Some(true),
        _ => None,
    }
}

/// What a Boolean literal decides. The absorbing one needs a scalar literal beside it, and the other one
/// has to be droppable.
fn decided(
    absorbing: bool,
    may_drop: bool,
    other_is_scalar: bool,
    value: Option<bool>,
) -> Option<Outcome>
    ensures { result ≡ decided absorbing may_drop other_is_scalar value }
{
    match value {
        None => None,
        Some(value) => {
            if value == absorbing {
                if other_is_scalar {
                    Some(Outcome::Absorbed)
                } else {
                    None
                }
            } else if may_drop {
                Some(Outcome::Other)
            } else {
                None
            }
        }
    }
}

fn in_filter(context: Context) -> bool
    ensures { result ≡ in_filter context }
{
    match context {
        Context::Filter => true,
        Context::Select => false,
    }
}

/// What a Boolean literal on the right decides, and then one on the left.
fn drop_boolean(
    alloc: Global,
    arena: &Arena,
    node: Node,
    plan: &PlanContext<'_>,
) -> Result<Option<AExpr>, PlanError>
    requires { IsCheckedAt (⟦<PlanContext<'static> as Plan>⟧.catalog plan.now) arena.now node.0 }
    ensures answer { IfOk result (Offers (IsRewriteIn boolean_operands
        (⟦<PlanContext<'static> as Plan>⟧.catalog plan.now) plan.now.context) arena.now arena.now node.0) }
    ensures options { IfOk result (KeepsOptions arena.now arena.now node.0) }
    ensures err { OnErr result (result ≡ Err PlanError.OutOfMemory) }
{
    let Some(parts) = binary_of(arena.get(node)) else {
        return Ok(None);
    };
    let Some(absorbing) = absorbing(parts.op) else {
        return Ok(None);
    };
    let left = arena.get(parts.left);
    let right = arena.get(parts.right);
    match decided(
        absorbing,
        true,
        is_scalar_literal(left),
        boolean_literal_of(right),
    ) {
        Some(Outcome::Other) => {
            let copy = left.try_clone(alloc)?;
            Ok(Some(copy))
        }
        Some(Outcome::Absorbed) => Ok(Some(AExpr::Literal(LiteralValue::Boolean(absorbing)))),
        None => match decided(
            absorbing,
            in_filter(plan.context),
            is_scalar_literal(right),
            boolean_literal_of(left),
        ) {
            Some(Outcome::Other) => {
                let copy = right.try_clone(alloc)?;
                Ok(Some(copy))
            }
            Some(Outcome::Absorbed) => Ok(Some(AExpr::Literal(LiteralValue::Boolean(absorbing)))),
            None => Ok(None),
        },
    }
}

fn negated_number<T: FoldInteger>(x: T) -> LiteralValue
    ensures { result ≡ literal_of T.value_type (into T.value_type (neg_ℤ (T.integer x))) }
{
    T::zero().minus(x).literal()
}

/// The negation of a signed literal.
fn negated_literal(value: &LiteralValue) -> Option<LiteralValue>
    ensures { result ≡ negated_literal value.now }
{
    match value {
        LiteralValue::Int8(z) => Some(negated_number(*z)),
        LiteralValue::Int16(z) => Some(negated_number(*z)),
        LiteralValue::Int32(z) => Some(negated_number(*z)),
        LiteralValue::Int64(z) => Some(negated_number(*z)),
        _ => None,
    }
}

/// A minus over a signed literal.
fn negate_literal(arena: &Arena, node: Node, plan: &PlanContext<'_>) -> Option<AExpr>
    requires { IsCheckedAt (⟦<PlanContext<'static> as Plan>⟧.catalog plan.now) arena.now node.0 }
    ensures answer { Offers (IsRewriteIn literal_negations
        (⟦<PlanContext<'static> as Plan>⟧.catalog plan.now) plan.now.context) arena.now arena.now node.0 result }
    ensures options { KeepsOptions arena.now arena.now node.0 result }
{
    let Some(input) = negate_of(arena.get(node)) else {
        return None;
    };
    let Some(value) = literal_of(arena.get(input)) else {
        return None;
    };
    match negated_literal(value) {
        Some(negated) => Some(AExpr::Literal(negated)),
        None => None,
    }
}

/// Drops Boolean literals beside `And` and `Or`, and takes a minus into a literal.
#[derive(Drop)]
pub struct SimplifyBooleanRule {}

impl OptimizationRule for SimplifyBooleanRule {
    ghost is_rewrite = { IsRewriteOf boolean_rule };

    fn optimize_expr(
        &mut self,
        alloc: Global,
        arena: &mut Arena,
        node: Node,
        plan: &PlanContext<'_>,
    ) -> Result<Option<AExpr>, PlanError> {
        match drop_boolean(alloc, arena, node, plan)? {
            Some(expr) => Ok(Some(expr)),
            None => Ok(negate_literal(arena, node, plan)),
        }
    }

    ghost keeps = { rule_keeps boolean_rule };
}
