//! Literals are folded, and a `not` goes into its input.
ghost use Rattle.std.specs.Prelude.{◌≡◌, ◌++◌, ◌<◌, [], ◌∷◌, length, IfOk, OnOk, OnErr};
ghost use Rattle.px_arena.specs.Denotes.{IsGrown};
ghost use Rattle.px_arena.specs.Runs.{Offers};
ghost use Rattle.px_rules.specs.Folding.{folded_booleans, folded_literals};
ghost use Rattle.px_rules.specs.Groups.{IsRewriteIn, IsRewriteOf, literal_folds, pushed_negations, expr_rule};
ghost use Rattle.px_rules.specs.MadeOptions.{KeepsOptions};
ghost use Rattle.px_rules.specs.Negation.{inward, boolean_call, negated_call};
ghost use Rattle.px_rules.specs.Plan.{IsCheckedAt};
ghost use Rattle.px_rules.specs.RuleLaws.{rule_keeps};

use crate::fold_integers::{compared, fold_numbers};
use crate::rule::OptimizationRule;
use crate::views::{BooleanCall, binary_of, boolean_literal_of, boolean_of, literal_of, not_of};
use px_arena::{AExpr, Arena, ExprIR, ExprIRList, Node};
use px_expr::{LiteralValue, Plan, PlanContext};
use px_functions::{EvaluatedBoolean, EvaluatedFunction, FunctionExpr};
use px_types::{FunctionOptions, Operator, PlanError};
use std::alloc::Global;

/// What a `not` makes of an operator.
pub enum NegatedOperator {
    /// The comparison that holds where this one does not.
    Complement(Operator),
    /// This operator over the negated operands.
    Dual(Operator),
}

fn inward(op: Operator) -> Option<NegatedOperator>
    ensures { result ≡ inward op }
{
    match op {
        Operator::Eq => Some(NegatedOperator::Complement(Operator::NotEq)),
        Operator::NotEq => Some(NegatedOperator::Complement(Operator::Eq)),
        Operator::Lt => Some(NegatedOperator::Complement(Operator::GtEq)),
        Operator::LtEq => Some(NegatedOperator::Complement(Operator::Gt)),
        Operator::Gt => Some(NegatedOperator::Complement(Operator::LtEq)),
        Operator::GtEq => Some(NegatedOperator::Complement(Operator::Lt)),
        Operator::And | Operator::LogicalAnd => Some(NegatedOperator::Dual(Operator::Or)),
        Operator::Or | Operator::LogicalOr => Some(NegatedOperator::Dual(Operator::And)),
        _ => None,
    }
}

/// A Boolean function over one place.
fn boolean_call(
    alloc: Global,
    function: EvaluatedBoolean,
    input: Node,
    options: FunctionOptions,
) -> Result<AExpr, PlanError>
    ensures call { IfOk result (λ e. e ≡ boolean_call function input options) }
    ensures err { OnErr result (result ≡ Err PlanError.OutOfMemory) }
{
    let mut places = ExprIRList::new(alloc);
    places.try_push(ExprIR(input))?;
    Ok(AExpr::Function {
        input: places,
        function: FunctionExpr::from(EvaluatedFunction::Boolean(function)),
        options,
    })
}

/// A null test over the input of another one, with its options.
fn null_test(
    alloc: Global,
    function: EvaluatedBoolean,
    inner: BooleanCall,
) -> Result<AExpr, PlanError>
    ensures call { IfOk result (λ e. e ≡ boolean_call function inner.input inner.options) }
    ensures err { OnErr result (result ≡ Err PlanError.OutOfMemory) }
{
    boolean_call(alloc, function, inner.input, inner.options)
}

/// The negation of a Boolean function.
fn negated_call(alloc: Global, arena: &Arena, inner: BooleanCall) -> Result<AExpr, PlanError>
    requires { inner.input.0 < length arena.now }
    ensures call { IfOk result (λ e. negated_call arena.now inner.function inner ≡ Some e) }
    ensures err { OnErr result (result ≡ Err PlanError.OutOfMemory) }
{
    match inner.function {
        EvaluatedBoolean::Not => arena.get(inner.input).try_clone(alloc),
        EvaluatedBoolean::IsNull => null_test(alloc, EvaluatedBoolean::IsNotNull, inner),
        EvaluatedBoolean::IsNotNull => null_test(alloc, EvaluatedBoolean::IsNull, inner),
    }
}

/// A new place that holds the `not` of a place.
fn add_not(
    alloc: Global,
    arena: &mut Arena,
    input: Node,
    options: FunctionOptions,
) -> Result<Node, PlanError>
    requires { input.0 < length arena.old }
    ensures kept { IsGrown arena.old arena.new }
    ensures next { IfOk result (λ n. n.0 ≡ length arena.old) }
    ensures added { OnOk result (arena.new ≡ arena.old ++ boolean_call EvaluatedBoolean.Not input options ∷ []) }
    ensures err { OnErr result (result ≡ Err PlanError.OutOfMemory) }
{
    let negated = boolean_call(alloc, EvaluatedBoolean::Not, input, options)?;
    arena.add(negated)
}

/// The node that means the negation of the input of a `not`.
fn push_not(
    alloc: Global,
    arena: &mut Arena,
    node: Node,
    plan: &PlanContext<'_>,
) -> Result<Option<AExpr>, PlanError>
    requires { IsCheckedAt (⟦<PlanContext<'static> as Plan>⟧.catalog plan.now) arena.old node.0 }
    ensures kept { IsGrown arena.old arena.new }
    ensures answer { IfOk result (Offers (IsRewriteIn pushed_negations
        (⟦<PlanContext<'static> as Plan>⟧.catalog plan.now) plan.now.context) arena.old arena.new node.0) }
    ensures options { IfOk result (KeepsOptions arena.old arena.new node.0) }
    ensures err { OnErr result (result ≡ Err PlanError.OutOfMemory) }
{
    let Some(outer) = not_of(arena.get(node)) else {
        return Ok(None);
    };
    let under = arena.get(outer.input);
    match boolean_literal_of(under) {
        Some(value) => Ok(Some(AExpr::Literal(LiteralValue::Boolean(!value)))),
        None => match binary_of(under) {
            Some(inner) => match inward(inner.op) {
                None => Ok(None),
                Some(NegatedOperator::Complement(op)) => Ok(Some(AExpr::BinaryExpr {
                    left: inner.left,
                    op,
                    right: inner.right,
                })),
                Some(NegatedOperator::Dual(op)) => {
                    let left = add_not(alloc, arena, inner.left, outer.options)?;
                    let right = add_not(alloc, arena, inner.right, outer.options)?;
                    Ok(Some(AExpr::BinaryExpr { left, op, right }))
                }
            },
            None => match boolean_of(under) {
                None => Ok(None),
                Some(inner) => {
                    let negated = negated_call(alloc, arena, inner)?;
                    Ok(Some(negated))
                }
            },
        },
    }
}

/// An operator on two Booleans.
fn fold_booleans(op: Operator, a: bool, b: bool) -> Option<bool>
    ensures { result ≡ folded_booleans op a b }
{
    match op {
        Operator::And | Operator::LogicalAnd => Some(a && b),
        Operator::Or | Operator::LogicalOr => Some(a || b),
        Operator::Xor => Some(if a { !b } else { b }),
        _ => compared(op, a.cmp(&b), b.cmp(&a)),
    }
}

/// An operator on two literals of one type.
fn fold_literals(op: Operator, left: &LiteralValue, right: &LiteralValue) -> Option<LiteralValue>
    ensures { result ≡ folded_literals op left.now right.now }
{
    match (left, right) {
        (LiteralValue::Boolean(a), LiteralValue::Boolean(b)) => match fold_booleans(op, *a, *b) {
            Some(value) => Some(LiteralValue::Boolean(value)),
            None => None,
        },
        (LiteralValue::UInt8(x), LiteralValue::UInt8(y)) => fold_numbers(op, *x, *y),
        (LiteralValue::UInt16(x), LiteralValue::UInt16(y)) => fold_numbers(op, *x, *y),
        (LiteralValue::UInt32(x), LiteralValue::UInt32(y)) => fold_numbers(op, *x, *y),
        (LiteralValue::UInt64(x), LiteralValue::UInt64(y)) => fold_numbers(op, *x, *y),
        (LiteralValue::Int8(x), LiteralValue::Int8(y)) => fold_numbers(op, *x, *y),
        (LiteralValue::Int16(x), LiteralValue::Int16(y)) => fold_numbers(op, *x, *y),
        (LiteralValue::Int32(x), LiteralValue::Int32(y)) => fold_numbers(op, *x, *y),
        (LiteralValue::Int64(x), LiteralValue::Int64(y)) => fold_numbers(op, *x, *y),
        _ => None,
    }
}

/// An operator over two literals of one type.
fn fold(arena: &Arena, node: Node, plan: &PlanContext<'_>) -> Option<AExpr>
    requires { IsCheckedAt (⟦<PlanContext<'static> as Plan>⟧.catalog plan.now) arena.now node.0 }
    ensures answer { Offers (IsRewriteIn literal_folds
        (⟦<PlanContext<'static> as Plan>⟧.catalog plan.now) plan.now.context) arena.now arena.now node.0 result }
    ensures options { KeepsOptions arena.now arena.now node.0 result }
{
    let Some(parts) = binary_of(arena.get(node)) else {
        return None;
    };
    let Some(left) = literal_of(arena.get(parts.left)) else {
        return None;
    };
    let Some(right) = literal_of(arena.get(parts.right)) else {
        return None;
    };
    match fold_literals(parts.op, left, right) {
        Some(value) => Some(AExpr::Literal(value)),
        None => None,
    }
}

/// Folds literals, and takes a `not` into its input.
#[derive(Drop)]
pub struct SimplifyExprRule {}

impl OptimizationRule for SimplifyExprRule {
    ghost is_rewrite = { IsRewriteOf expr_rule };

    fn optimize_expr(
        &mut self,
        alloc: Global,
        arena: &mut Arena,
        node: Node,
        plan: &PlanContext<'_>,
    ) -> Result<Option<AExpr>, PlanError> {
        match push_not(alloc, arena, node, plan)? {
            Some(expr) => Ok(Some(expr)),
            None => Ok(fold(arena, node, plan)),
        }
    }

    ghost keeps = { rule_keeps expr_rule };
}
