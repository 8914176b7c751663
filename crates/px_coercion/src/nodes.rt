//! What is found at a node, from what is found at its inputs: one function for each kind of node.
//!
//! Where an expression is dropped, `drop` is called by name: the proof of that is short, and at the end of
//! a scope it would go through each variant of the expression.
ghost use Rattle.std.specs.Prelude.{◌≡◌, [], ◌∷◌, ◌++◌, map, Some, IfOk, OnErr, Err, option_map, option_and_then};
ghost use Rattle.px_functions.specs.Evaluated.{evaluated};
ghost use Rattle.px_types.specs.declared.value_type.ValueType.TheVariants as bool;
ghost use Rattle.px_base.specs.Answer.{AnswersOrMemory, GivesOrMemory, GivesSeen};
ghost use Rattle.px_types.specs.ValueTypes.{value_type_of, default_type};
ghost use Rattle.px_expr.specs.Tree.{Alias, Column, Literal, Binary, Cast, Ternary, Tree, function_node, over, tree_of};
ghost use Rattle.px_expr.specs.Options.{options_of, joined};
ghost use Rattle.px_meaning.specs.Signatures.{unary, uniting, any_type, cast_type, group_type, group_of, literal_signature, ternary_signature, function_signature, united};
ghost use Rattle.px_meaning.specs.Check.{then_, or_fault, operand_of, coerced, column_signature, deferred, with_default_type_or, made};
ghost use Rattle.px_meaning.specs.Check as check;
ghost use Rattle.px_meaning.specs.Lowerable.{IsLowerable};
ghost use Rattle.px_coercion.specs.Found.{seen, read, options_in, by_signature, all_coerced, uniform_signature, branches};
ghost use Rattle.px_coercion.specs.CheckedTree.{typed_of};

use crate::checked::Checked;
use crate::found::{Found, Operand};
use crate::literals::{default_literal, literal_of, literal_type};
use crate::types::{cast_type, column_type, function_types, is_mask, is_type, operator_type};
use crate::unite::united;
use px_expr::{Expr, ExprList, LiteralValue, binary_expr};
use px_functions::{EvaluatedFunction, FunctionExpr};
use px_types::{
    Boxed, CastOptions, DataType, FunctionOptions, List, Operator, PlanError, Schema, SmallStr,
    ValueType, boxed,
};
use std::alloc::Global;

fn cast_expr(alloc: Global, expr: Expr, value_type: ValueType) -> Result<Expr, PlanError>
    ensures answer { GivesSeen tree_of result (check.cast_tree value_type (tree_of expr)) }
    ensures kept { IfOk result (λ x. options_of x ≡ options_of expr) }
{
    Ok(Expr::Cast {
        expr: boxed(alloc, expr)?,
        dtype: value_type.dtype(),
        options: CastOptions::NonStrict,
    })
}

// The literal of an integer in its default type.
fn default_expr(v: i128) -> Expr
    ensures answer { tree_of result ≡ check.default_literal v (default_type v) }
    ensures kept { options_of result ≡ [] }
{
    match default_literal(v) {
        Some((literal, _)) => Expr::Literal(literal),
        None => Expr::Literal(LiteralValue::Int(v)),
    }
}

/// An input made what a signature wants.
pub fn coerce(alloc: Global, value_type: ValueType, input: Found) -> Result<Expr, PlanError>
    ensures answer { GivesSeen tree_of result (coerced value_type (seen input)) }
    ensures kept { IfOk result (λ x. options_of x ≡ options_in input) }
{
    match input {
        Found::Typed(expr, own) => {
            if is_type(own, value_type) {
                Ok(expr)
            } else {
                cast_expr(alloc, expr, value_type)
            }
        }
        Found::Untyped(v) => {
            if value_type.holds(v) {
                Ok(Expr::Literal(literal_of(value_type, v)))
            } else {
                cast_expr(alloc, default_expr(v), value_type)
            }
        }
    }
}

fn coerce_two(
    alloc: Global,
    value_type: ValueType,
    left: Found,
    right: Found,
) -> Result<(Expr, Expr), PlanError>
    ensures answer { GivesSeen {B = Tree × Tree}
        (λ p. (tree_of p.0, tree_of p.1)) result (coerced value_type (seen left), coerced value_type (seen right)) }
    ensures kept { IfOk result (λ p. (options_of p.0 ≡ options_in left) × (options_of p.1 ≡ options_in right)) }
{
    match coerce(alloc, value_type, left) {
        Ok(left) => coerce_beside(alloc, left, value_type, right),
        Err(e) => {
            drop(right);
            Err(e)
        }
    }
}

fn coerce_beside(
    alloc: Global,
    left: Expr,
    value_type: ValueType,
    right: Found,
) -> Result<(Expr, Expr), PlanError>
    ensures answer { GivesSeen {B = Tree × Tree}
        (λ p. (tree_of p.0, tree_of p.1)) result (tree_of left, coerced value_type (seen right)) }
    ensures kept { IfOk result (λ p. (options_of p.0 ≡ options_of left) × (options_of p.1 ≡ options_in right)) }
{
    match coerce(alloc, value_type, right) {
        Ok(right) => Ok((left, right)),
        Err(e) => {
            drop(left);
            Err(e)
        }
    }
}

fn coerce_all(
    alloc: Global,
    value_type: ValueType,
    inputs: Vec<Found>,
) -> Result<ExprList, PlanError>
    ensures answer { GivesSeen (λ l. map tree_of l.entries) result (all_coerced value_type (map seen inputs.items)) }
    ensures kept { IfOk result (λ l. map options_of l.entries ≡ map options_in inputs.items) }
{
    let mut trees = List::new(alloc);
    for input in inputs {
        trees.try_push(coerce(alloc, value_type, input)?)?;
    }
    Ok(trees)
}

/// A column of the schema. `ColumnNotFound` where the schema lacks the name, and `InvalidOperation` where
/// no column of its type is taken.
pub fn column(alloc: Global, schema: &Schema, name: &SmallStr) -> Result<Found, PlanError>
    ensures answer { AnswersOrMemory seen result (then_ (column_signature schema.now name.now [])
        (λ s. Ok (made (Column name.now) [] s))) }
    ensures kept { IfOk result (λ f. options_in f ≡ []) }
{
    let Some(dtype) = schema.get(name.as_str()) else {
        return Err(PlanError::ColumnNotFound(name.try_clone(alloc)?));
    };
    let Some(value_type) = column_type(dtype) else {
        return Err(PlanError::InvalidOperation);
    };
    Ok(Found::Typed(Expr::Column(name.try_clone(alloc)?), value_type))
}

fn typed_literal(alloc: Global, value: &LiteralValue) -> Result<Found, PlanError>
    ensures answer { AnswersOrMemory seen result
        (by_signature (literal_signature value.now []) (Literal value.now) []) }
    ensures kept { IfOk result (λ f. options_in f ≡ []) }
{
    let Some(value_type) = literal_type(value) else {
        return Err(PlanError::InvalidOperation);
    };
    Ok(Found::Typed(Expr::Literal(value.try_clone(alloc)?), value_type))
}

/// A literal. An integer without a type stays so until the node above decides it.
pub fn literal(alloc: Global, value: &LiteralValue) -> Result<Found, PlanError>
    ensures answer { AnswersOrMemory seen result
        (with_default_type_or (deferred (Literal value.now))
        (by_signature (literal_signature value.now []) (Literal value.now) [])) }
    ensures kept { IfOk result (λ f. options_in f ≡ []) }
{
    match value {
        LiteralValue::Int(v) => Ok(Found::Untyped(*v)),
        _ => typed_literal(alloc, value),
    }
}

fn alias_expr(alloc: Global, expr: Expr, name: &SmallStr) -> Result<Expr, PlanError>
    ensures { GivesOrMemory result (Expr.Alias expr name.now) }
{
    let input = boxed(alloc, expr)?;
    let name = name.try_clone(alloc)?;
    Ok(Expr::Alias(input, name))
}

fn alias_of(
    alloc: Global,
    value_type: ValueType,
    input: Found,
    name: &SmallStr,
) -> Result<Expr, PlanError>
    ensures answer { GivesSeen tree_of result (over (Alias name.now) (coerced value_type (seen input) ∷ [])) }
    ensures kept { IfOk result (λ x. options_of x ≡ options_in input) }
{
    let input = coerce(alloc, value_type, input)?;
    alias_expr(alloc, input, name)
}

/// An input under another name. An integer literal gets its default type.
pub fn alias(alloc: Global, input: Found, name: &SmallStr) -> Result<Found, PlanError>
    ensures answer { AnswersOrMemory seen result (by_signature (unary any_type (operand_of (seen input)
        ∷ [])) (Alias name.now) (seen input ∷ [])) }
    ensures kept { IfOk result (λ f. options_in f ≡ options_in input) }
{
    let Some(value_type) = input.operand().own_type() else {
        drop(input);
        return Err(PlanError::InvalidOperation);
    };
    Ok(Found::Typed(alias_of(alloc, value_type, input, name)?, value_type))
}

fn cast_to(
    alloc: Global,
    expr: Expr,
    dtype: &DataType,
    options: CastOptions,
) -> Result<Expr, PlanError>
    ensures { GivesOrMemory result (Expr.Cast expr dtype.now options) }
{
    let expr = boxed(alloc, expr)?;
    let dtype = dtype.try_clone(alloc)?;
    Ok(Expr::Cast {
        expr,
        dtype,
        options,
    })
}

fn cast_types(dtype: &DataType, operand: Operand) -> Option<(ValueType, ValueType)>
    ensures { unary (cast_type (value_type_of dtype.now)) (read operand ∷ [])
        ≡ option_map (uniform_signature (read operand ∷ [])) result }
{
    let own = operand.own_type()?;
    Some((own, cast_type(dtype, own)?))
}

fn cast_of(
    alloc: Global,
    value_type: ValueType,
    input: Found,
    dtype: &DataType,
    options: CastOptions,
) -> Result<Expr, PlanError>
    ensures answer { GivesSeen tree_of result (over (Cast dtype.now options) (coerced value_type (seen input) ∷ [])) }
    ensures kept { IfOk result (λ x. options_of x ≡ options_in input) }
{
    let input = coerce(alloc, value_type, input)?;
    cast_to(alloc, input, dtype, options)
}

/// A cast of an input to the type, where there is one from the input's type.
pub fn cast(
    alloc: Global,
    input: Found,
    dtype: &DataType,
    options: CastOptions,
) -> Result<Found, PlanError>
    ensures answer { AnswersOrMemory seen result
        (by_signature (unary (cast_type (value_type_of dtype.now)) (operand_of (seen input)
        ∷ [])) (Cast dtype.now options) (seen input ∷ [])) }
    ensures kept { IfOk result (λ f. options_in f ≡ options_in input) }
{
    let Some((own, value_type)) = cast_types(dtype, input.operand()) else {
        drop(input);
        return Err(PlanError::InvalidOperation);
    };
    Ok(Found::Typed(cast_of(alloc, own, input, dtype, options)?, value_type))
}

fn united_two(left: Operand, right: Operand) -> Option<ValueType>
    ensures { result ≡ united (read left ∷ read right ∷ []) }
{
    united(&[left, right])
}

fn binary_types(left: Operand, op: Operator, right: Operand) -> Option<(ValueType, ValueType)>
    ensures { uniting 2 (group_type (group_of op)) (read left ∷ read right ∷ [])
        ≡ option_map (uniform_signature (read left ∷ read right ∷ [])) result }
{
    let value_type = united_two(left, right)?;
    Some((value_type, operator_type(op, value_type)?))
}

fn binary_of(
    alloc: Global,
    value_type: ValueType,
    left: Found,
    op: Operator,
    right: Found,
) -> Result<Expr, PlanError>
    ensures answer { GivesSeen tree_of result (over (Binary op) (coerced value_type (seen left)
        ∷ coerced value_type (seen right) ∷ [])) }
    ensures kept { IfOk result (λ x. options_of x ≡ options_in left ++ options_in right) }
{
    let (left, right) = coerce_two(alloc, value_type, left, right)?;
    binary_expr(alloc, left, op, right)
}

/// An operator over two inputs, each cast to the type to which they unite.
pub fn binary(alloc: Global, left: Found, op: Operator, right: Found) -> Result<Found, PlanError>
    ensures answer { AnswersOrMemory seen result
        (by_signature (uniting 2 (group_type (group_of op)) (operand_of (seen left) ∷ operand_of (seen right)
        ∷ [])) (Binary op) (seen left ∷ seen right ∷ [])) }
    ensures kept { IfOk result (λ f. options_in f ≡ options_in left ++ options_in right) }
{
    let Some((value_type, own)) = binary_types(left.operand(), op, right.operand()) else {
        drop(left);
        drop(right);
        return Err(PlanError::InvalidOperation);
    };
    Ok(Found::Typed(binary_of(alloc, value_type, left, op, right)?, own))
}

fn boxed_two(
    alloc: Global,
    left: Expr,
    right: Expr,
) -> Result<(Boxed<Expr>, Boxed<Expr>), PlanError>
    ensures { GivesOrMemory result (left, right) }
{
    match boxed(alloc, left) {
        Ok(left) => boxed_beside(alloc, left, right),
        Err(e) => {
            drop(right);
            Err(e)
        }
    }
}

fn boxed_beside(
    alloc: Global,
    left: Boxed<Expr>,
    right: Expr,
) -> Result<(Boxed<Expr>, Boxed<Expr>), PlanError>
    ensures { GivesOrMemory result (left, right) }
{
    let right = boxed(alloc, right)?;
    Ok((left, right))
}

fn ternary_expr(
    alloc: Global,
    predicate: Boxed<Expr>,
    truthy: Expr,
    falsy: Expr,
) -> Result<Expr, PlanError>
    ensures { GivesOrMemory result (Expr.Ternary predicate truthy falsy) }
{
    let (truthy, falsy) = boxed_two(alloc, truthy, falsy)?;
    Ok(Expr::Ternary {
        predicate,
        truthy,
        falsy,
    })
}

fn mask_of(alloc: Global, input: Found) -> Result<Boxed<Expr>, PlanError>
    ensures answer { GivesSeen tree_of result (coerced bool.Boolean (seen input)) }
    ensures kept { IfOk result (λ x. options_of x ≡ options_in input) }
{
    let expr = coerce(alloc, ValueType::Boolean, input)?;
    boxed(alloc, expr)
}

fn branches_of(
    alloc: Global,
    predicate: Boxed<Expr>,
    value_type: ValueType,
    truthy: Found,
    falsy: Found,
) -> Result<Expr, PlanError>
    ensures answer { GivesSeen tree_of result (over Ternary (tree_of predicate ∷ coerced value_type (seen truthy)
        ∷ coerced value_type (seen falsy) ∷ [])) }
    ensures kept { IfOk result (λ x. options_of x ≡ options_of predicate ++ options_in truthy ++ options_in falsy) }
{
    let (truthy, falsy) = coerce_two(alloc, value_type, truthy, falsy)?;
    ternary_expr(alloc, predicate, truthy, falsy)
}

fn ternary_type(predicate: Operand, truthy: Operand, falsy: Operand) -> Option<ValueType>
    ensures { ternary_signature (read predicate ∷ read truthy ∷ read falsy ∷ []) ≡ option_map branches result }
{
    if is_mask(predicate.own_type()) {
        united_two(truthy, falsy)
    } else {
        None
    }
}

fn ternary_of(
    alloc: Global,
    predicate: Found,
    value_type: ValueType,
    truthy: Found,
    falsy: Found,
) -> Result<Expr, PlanError>
    ensures answer { GivesSeen tree_of result (over Ternary (coerced bool.Boolean (seen predicate)
        ∷ coerced value_type (seen truthy) ∷ coerced value_type (seen falsy) ∷ [])) }
    ensures kept { IfOk result (λ x. options_of x ≡ options_in predicate ++ options_in truthy ++ options_in falsy) }
{
    match mask_of(alloc, predicate) {
        Ok(predicate) => branches_of(alloc, predicate, value_type, truthy, falsy),
        Err(e) => {
            drop(truthy);
            drop(falsy);
            Err(e)
        }
    }
}

/// A choice between two branches, each cast to the type to which they unite, by a mask.
pub fn ternary(
    alloc: Global,
    predicate: Found,
    truthy: Found,
    falsy: Found,
) -> Result<Found, PlanError>
    ensures answer { AnswersOrMemory seen result (by_signature (ternary_signature (operand_of (seen predicate)
        ∷ operand_of (seen truthy) ∷ operand_of (seen falsy) ∷ [])) Ternary (seen predicate ∷ seen truthy
        ∷ seen falsy ∷ [])) }
    ensures kept { IfOk result (λ f. options_in f ≡ options_in predicate ++ options_in truthy ++ options_in falsy) }
{
    let Some(value_type) = ternary_type(predicate.operand(), truthy.operand(), falsy.operand())
    else {
        drop(predicate);
        drop(truthy);
        drop(falsy);
        return Err(PlanError::InvalidOperation);
    };
    Ok(Found::Typed(
        ternary_of(alloc, predicate, value_type, truthy, falsy)?,
        value_type,
    ))
}

fn operands_of(alloc: Global, inputs: &[Found]) -> Result<Vec<Operand>, PlanError>
    ensures { GivesSeen (λ v. map read v.items) result (map operand_of (map seen inputs.now)) }
{
    let mut operands = Vec::new(alloc);
    for input in inputs {
        operands.push(input.operand())?;
    }
    Ok(operands)
}

// The type that a function wants of each input, and its own.
fn types_over(
    alloc: Global,
    function: EvaluatedFunction,
    inputs: &[Found],
) -> Result<Option<(ValueType, ValueType)>, PlanError>
    ensures answer { IfOk result (λ p. function_signature function (map operand_of (map seen inputs.now))
        ≡ option_map (uniform_signature (map operand_of (map seen inputs.now))) p) }
    ensures err { OnErr result (result ≡ Err PlanError.OutOfMemory) }
{
    let operands = operands_of(alloc, inputs)?;
    Ok(function_types(function, &operands))
}

fn function_over(
    alloc: Global,
    input: ExprList,
    function: &FunctionExpr,
    options: FunctionOptions,
) -> Result<Expr, PlanError>
    ensures { GivesOrMemory result (Expr.Function input function.now options) }
{
    let function = function.try_clone(alloc)?;
    Ok(Expr::Function {
        input,
        function,
        options,
    })
}

fn function_of(
    alloc: Global,
    value_type: ValueType,
    inputs: Vec<Found>,
    function: &FunctionExpr,
    options: FunctionOptions,
) -> Result<Expr, PlanError>
    ensures answer { GivesSeen tree_of result
        (over (function_node function.now) (all_coerced value_type (map seen inputs.items))) }
    ensures kept { IfOk result (λ x. options_of x ≡ options ∷ joined (map options_in inputs.items)) }
{
    let input = coerce_all(alloc, value_type, inputs)?;
    function_over(alloc, input, function, options)
}

/// A function over inputs, each cast to the type that it wants, with its options. `InvalidOperation` where it is
/// not evaluated, or does not take these inputs.
pub fn function(
    alloc: Global,
    inputs: Vec<Found>,
    function: &FunctionExpr,
    options: FunctionOptions,
) -> Result<Found, PlanError>
    ensures answer { AnswersOrMemory seen result
        (by_signature (option_and_then (λ f. function_signature f (map operand_of (map seen inputs.items))) (evaluated function.now))
        (function_node function.now) (map seen inputs.items)) }
    ensures kept { IfOk result (λ f. options_in f ≡ options ∷ joined (map options_in inputs.items)) }
{
    let Some(evaluated) = function.evaluated() else {
        return Err(PlanError::InvalidOperation);
    };
    let Some((value_type, own)) = types_over(alloc, evaluated, &inputs)? else {
        return Err(PlanError::InvalidOperation);
    };
    Ok(Found::Typed(
        function_of(alloc, value_type, inputs, function, options)?,
        own,
    ))
}

/// A whole expression: an integer literal has its default type. `InvalidOperation` where it has none.
pub fn with_default_type(alloc: Global, found: Found) -> Result<Checked, PlanError>
    requires { IfOk (check.with_default_type (seen found)) (λ t. IsLowerable t.tree) }
    ensures answer { AnswersOrMemory typed_of result (check.with_default_type (seen found)) }
    ensures kept { IfOk result (λ c. options_of c.tree ≡ options_in found) }
{
    match found {
        Found::Typed(expr, value_type) => Checked::new(alloc, expr, value_type),
        Found::Untyped(v) => match default_literal(v) {
            Some((literal, value_type)) => Checked::new(alloc, Expr::Literal(literal), value_type),
            None => Err(PlanError::InvalidOperation),
        },
    }
}
