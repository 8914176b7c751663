//! Expressions, written as values.
ghost use Rattle.std.specs.Prelude.{◌≡◌, ◌++◌, ◌∷◌, [], map, option_map, option_and_then, IfOk, IfSome, Some, false};
ghost use Rattle.serde_json.specs.View.{view, items_view};
ghost use Rattle.serde_json.specs.Written.{has_float, items_have_float};
ghost use Rattle.px_expr.specs.Tree.{Alias, Binary, Cast, Ternary, function_node, over, tree_of};
ghost use Rattle.px_base.specs.Answer.{GivesSeen};
ghost use Rattle.px_forms.specs.Form.{expr_of};
ghost use Rattle.px_forms.specs.Written as written;
ghost use Rattle.px_forms.specs.Written.{data_of, all_data, literal_data};

use crate::build;
use crate::literal::LiteralType;
use px_column::Column;
use px_expr::{Expr, LiteralValue};
use px_functions::FunctionExpr;
use px_integers::Integer;
use px_json::{integer_value, number_value, single_member, text_value, value_of_column};
use px_types::{CastOptions, DataType, Operator, PlanError, ValueType};
use serde_json::Value;
use std::alloc::Global;

/// The value that the expression is written as, and None where it has no form. The options of its
/// functions are left out. The only error is out of memory.
pub fn value_of_expr(alloc: Global, expr: &Expr) -> Result<Option<Value>, PlanError>
    ensures value { GivesSeen (option_map view) result (data_of (tree_of expr.now)) }

    // It has no float, so its compact text is known.
    ensures plain { IfOk result (λ o. IfSome o (λ v. has_float (view v) ≡ false)) }

    // What is written reads as the same tree.
    ensures again { IfOk result (λ o. IfSome o
        (λ v. option_map tree_of (expr_of (view v)) ≡ Some (tree_of expr.now))) }
{
    expr_value(alloc, expr)
}

/// Each expression's value, and None where one of them has no form. The only error is out of memory.
pub fn values_of_exprs(alloc: Global, exprs: &[Expr]) -> Result<Option<Vec<Value>>, PlanError>
    ensures values { GivesSeen (option_map (λ v. map view v.items)) result
        (all_data (map tree_of exprs.now)) }
    ensures plain { IfOk result (λ o. IfSome o (λ v. items_have_float (items_view v.items) ≡ false)) }
{
    let values = Vec::with_capacity(alloc, exprs.len())?;
    values_after(alloc, values, exprs)
}

#[cycle(writing)]
fn expr_value(alloc: Global, expr: &Expr) -> Result<Option<Value>, PlanError>
    ensures { GivesSeen (option_map view) result (data_of (tree_of expr.now)) }
{
    match expr {
        Expr::Alias(input, name) => alias_value(alloc, input.get(), name.as_str()),
        Expr::Column(name) => Ok(Some(build::column_value(alloc, name.as_str())?)),
        Expr::Literal(value) => literal_value(alloc, value),
        Expr::BinaryExpr { left, op, right } => {
            binary_value(alloc, left.get(), *op, right.get())
        }
        Expr::Cast {
            expr,
            dtype,
            options,
        } => cast_value(alloc, expr.get(), dtype, *options),
        Expr::Ternary {
            predicate,
            truthy,
            falsy,
        } => ternary_value(alloc, predicate.get(), truthy.get(), falsy.get()),
        Expr::Function {
            input,
            function,
            options: _,
        } => function_value(alloc, function, input.as_slice()),
        Expr::Columns(_)
        | Expr::DtypeColumn(_)
        | Expr::IndexColumn(_)
        | Expr::Gather { .. }
        | Expr::Slice { .. }
        | Expr::Filter { .. }
        | Expr::Agg(_)
        | Expr::AnonymousFunction { .. }
        | Expr::Explode(_)
        | Expr::Exclude(_, _)
        | Expr::Len
        | Expr::Nth(_)
        | Expr::Wildcard => Ok(None),
    }
}

#[cycle(writing)]
fn alias_value(alloc: Global, input: &Expr, name: &str) -> Result<Option<Value>, PlanError>
    ensures { GivesSeen (option_map view) result
        (data_of (over (Alias name.now) (tree_of input.now ∷ []))) }
{
    let Some(input) = expr_value(alloc, input)? else {
        return Ok(None);
    };
    Ok(Some(build::alias(alloc, input, name)?))
}

#[cycle(writing)]
fn binary_value(
    alloc: Global,
    left: &Expr,
    op: Operator,
    right: &Expr,
) -> Result<Option<Value>, PlanError>
    ensures { GivesSeen (option_map view) result
        (data_of (over (Binary op) (tree_of left.now ∷ tree_of right.now ∷ []))) }
{
    let Some(left) = expr_value(alloc, left)? else {
        return Ok(None);
    };
    operated_value(alloc, left, op, right)
}

/// The operator over a left operand that is written already.
#[cycle(writing)]
fn operated_value(
    alloc: Global,
    left: Value,
    op: Operator,
    right: &Expr,
) -> Result<Option<Value>, PlanError>
    ensures { GivesSeen (option_map view) result
        (option_and_then (λ r. Some (written.binary_data (view left) op r)) (data_of (tree_of right.now))) }
{
    let Some(right) = expr_value(alloc, right)? else {
        return Ok(None);
    };
    Ok(Some(build::binary(alloc, left, op, right)?))
}

#[cycle(writing)]
fn cast_value(
    alloc: Global,
    input: &Expr,
    dtype: &DataType,
    options: CastOptions,
) -> Result<Option<Value>, PlanError>
    ensures { GivesSeen (option_map view) result
        (data_of (over (Cast dtype.now options) (tree_of input.now ∷ []))) }
{
    let Some(value_type) = dtype.value_type() else {
        return Ok(None);
    };
    let Some(input) = expr_value(alloc, input)? else {
        return Ok(None);
    };
    Ok(Some(build::cast_value(alloc, input, value_type, options)?))
}

#[cycle(writing)]
fn ternary_value(
    alloc: Global,
    predicate: &Expr,
    truthy: &Expr,
    falsy: &Expr,
) -> Result<Option<Value>, PlanError>
    ensures { GivesSeen (option_map view) result
        (data_of (over Ternary (tree_of predicate.now ∷ tree_of truthy.now ∷ tree_of falsy.now ∷ []))) }
{
    let Some(predicate) = expr_value(alloc, predicate)? else {
        return Ok(None);
    };
    choice_value(alloc, predicate, truthy, falsy)
}

/// The choice by a predicate that is written already.
#[cycle(writing)]
fn choice_value(
    alloc: Global,
    predicate: Value,
    truthy: &Expr,
    falsy: &Expr,
) -> Result<Option<Value>, PlanError>
    ensures { GivesSeen (option_map view) result
        (option_and_then (λ t. option_and_then (λ f. Some (written.ternary_data (view predicate) t f)) (data_of (tree_of falsy.now))) (data_of (tree_of truthy.now))) }
{
    let Some(truthy) = expr_value(alloc, truthy)? else {
        return Ok(None);
    };
    choice_between(alloc, predicate, truthy, falsy)
}

#[cycle(writing)]
fn choice_between(
    alloc: Global,
    predicate: Value,
    truthy: Value,
    falsy: &Expr,
) -> Result<Option<Value>, PlanError>
    ensures { GivesSeen (option_map view) result
        (option_and_then (λ f. Some (written.ternary_data (view predicate) (view truthy) f)) (data_of (tree_of falsy.now))) }
{
    let Some(falsy) = expr_value(alloc, falsy)? else {
        return Ok(None);
    };
    Ok(Some(build::ternary_value(alloc, predicate, truthy, falsy)?))
}

#[cycle(writing)]
fn function_value(
    alloc: Global,
    function: &FunctionExpr,
    inputs: &[Expr],
) -> Result<Option<Value>, PlanError>
    ensures { GivesSeen (option_map view) result
        (data_of (over (function_node function.now) (map tree_of inputs.now))) }
{
    let Some(evaluated) = function.evaluated() else {
        return Ok(None);
    };
    let items = build::function_front(alloc, evaluated)?;
    let Some(items) = values_after(alloc, items, inputs)? else {
        return Ok(None);
    };
    Ok(Some(build::function_value(alloc, items)?))
}

/// The values, and after them each expression's. None where one of the expressions has no form.
#[cycle(writing)]
fn values_after(
    alloc: Global,
    values: Vec<Value>,
    exprs: &[Expr],
) -> Result<Option<Vec<Value>>, PlanError>
    ensures { GivesSeen (option_map (λ v. map view v.items)) result
        (option_map (λ ds. map view values.items ++ ds) (all_data (map tree_of exprs.now))) }
{
    let mut values = values;
    for expr in exprs {
        let Some(value) = expr_value(alloc, expr)? else {
            return Ok(None);
        };
        values.push(value)?;
    }
    Ok(Some(values))
}

fn literal_value(alloc: Global, literal: &LiteralValue) -> Result<Option<Value>, PlanError>
    ensures { GivesSeen (option_map view) result (literal_data literal.now) }
{
    match literal {
        LiteralValue::Null => Ok(Some(build::bare(alloc, Value::Null)?)),
        LiteralValue::Boolean(t) => Ok(Some(build::bare(alloc, Value::from(*t))?)),
        LiteralValue::String(text) => {
            let text = text_value(alloc, text.as_str())?;
            Ok(Some(build::bare(alloc, text)?))
        }
        LiteralValue::UInt8(n) => number_literal(alloc, ValueType::UInt8, *n),
        LiteralValue::UInt16(n) => number_literal(alloc, ValueType::UInt16, *n),
        LiteralValue::UInt32(n) => number_literal(alloc, ValueType::UInt32, *n),
        LiteralValue::UInt64(n) => number_literal(alloc, ValueType::UInt64, *n),
        LiteralValue::Int8(n) => number_literal(alloc, ValueType::Int8, *n),
        LiteralValue::Int16(n) => number_literal(alloc, ValueType::Int16, *n),
        LiteralValue::Int32(n) => number_literal(alloc, ValueType::Int32, *n),
        LiteralValue::Int64(n) => number_literal(alloc, ValueType::Int64, *n),
        LiteralValue::Int128(n) => int128_literal(alloc, *n),
        LiteralValue::Int(n) => open_literal(alloc, *n),
        LiteralValue::Series(column) => series_literal(alloc, column),
        LiteralValue::Binary(_) | LiteralValue::Range { .. } | LiteralValue::StrCat(_) => Ok(None),
    }
}

/// A number of the integer type.
fn number_literal<T: Integer>(
    alloc: Global,
    value_type: ValueType,
    n: T,
) -> Result<Option<Value>, PlanError>
    requires { value_type ≡ T.value_type }
    ensures { GivesSeen (option_map view) result (written.number_data value_type (T.integer n)) }
{
    // Its clauses say that the type holds the number.
    let _wide = n.to_wide();
    let value = number_value(n);
    Ok(Some(build::typed(alloc, LiteralType::Value(value_type), value)?))
}

fn int128_literal(alloc: Global, n: i128) -> Result<Option<Value>, PlanError>
    ensures { GivesSeen (option_map view) result (literal_data (LiteralValue.Int128 n)) }
{
    let value = integer_value(alloc, n)?;
    Ok(Some(build::typed(alloc, LiteralType::Int128, value)?))
}

fn open_literal(alloc: Global, n: i128) -> Result<Option<Value>, PlanError>
    ensures { GivesSeen (option_map view) result (literal_data (LiteralValue.Int n)) }
{
    let value = integer_value(alloc, n)?;
    if value.is_number() {
        Ok(Some(build::bare(alloc, value)?))
    } else {
        Ok(Some(build::typed(alloc, LiteralType::Int, value)?))
    }
}

fn series_literal(alloc: Global, column: &Column) -> Result<Option<Value>, PlanError>
    ensures { GivesSeen (option_map view) result (literal_data (LiteralValue.Series column.now)) }
{
    // Its clauses say that the rows are those of a column.
    let _len = column.len();
    let value = value_of_column(alloc, column)?;
    Ok(Some(single_member(alloc, "series", value)?))
}
