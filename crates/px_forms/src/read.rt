//! Expressions, read from values.
ghost use Rattle.std.specs.Prelude.{◌≡◌, ◌∷◌, [], Some, option_and_then, option_map};
ghost use Rattle.serde_json.specs.Find.{as_str};
ghost use Rattle.serde_json.specs.View.{view, items_view};
ghost use Rattle.px_base.specs.Answer.{GivesOrMemory, GivesSeen};
ghost use Rattle.px_json.specs.Column.{column_in};
ghost use Rattle.px_forms.specs.Form as form_of;
ghost use Rattle.px_forms.specs.Form.{expr_of, exprs_of, parts_of};

use crate::form::{self, Form, ListForm};
use crate::{build, literal, names, operator};
use px_expr::{Expr, ExprList, LiteralValue};
use px_functions::EvaluatedFunction;
use px_json::{column_of_value, items_of, only_member, pair_of, triple_of, value_type_named};
use px_types::{Boxed, CastOptions, List, Operator, PlanError, SmallStr, ValueType, boxed};
use serde_json::Value;
use std::alloc::Global;

/// The expression that the value stands for, and None where no form fits. Each function has the
/// options that its builder sets: it goes element by element. The only error is out of memory.
pub fn expr_of_value(alloc: Global, value: &Value) -> Result<Option<Expr>, PlanError>
    ensures expr { GivesOrMemory result (expr_of (view value.now)) }
{
    expr_in(alloc, value)
}

/// Each value's expression, and None where one of them stands for none. The only error is out of
/// memory.
pub fn exprs_of_values(alloc: Global, values: &[Value]) -> Result<Option<ExprList>, PlanError>
    ensures exprs { GivesSeen (option_map (λ l. l.entries)) result
        (exprs_of (items_view values.now)) }
{
    exprs_in(alloc, values)
}

#[cycle(reading)]
fn expr_in(alloc: Global, value: &Value) -> Result<Option<Expr>, PlanError>
    ensures { GivesOrMemory result (expr_of (view value.now)) }
{
    let Some((name, inner)) = only_member(value) else {
        return Ok(None);
    };
    let Some(form) = form::named(name) else {
        return Ok(None);
    };
    match form {
        Form::Column => column(alloc, inner),
        Form::Literal => literal_in(alloc, inner),
        Form::Series => series(alloc, inner),
        Form::ListForm(form) => {
            let Some(items) = items_of(inner) else {
                return Ok(None);
            };
            list_form(alloc, form, items)
        }
    }
}

#[cycle(reading)]
fn list_form(alloc: Global, form: ListForm, items: &[Value]) -> Result<Option<Expr>, PlanError>
    ensures { GivesOrMemory result (form_of.list_form form (parts_of (items_view items.now))) }
{
    match form {
        ListForm::Alias => aliased(alloc, items),
        ListForm::Binary => binary(alloc, items),
        ListForm::Cast => cast(alloc, items),
        ListForm::When => ternary(alloc, items),
        ListForm::Function => function(alloc, items),
    }
}

fn column(alloc: Global, inner: &Value) -> Result<Option<Expr>, PlanError>
    ensures { GivesOrMemory result (option_map Expr.Column (as_str (view inner.now))) }
{
    let Some(name) = inner.as_str() else {
        return Ok(None);
    };
    Ok(Some(Expr::Column(SmallStr::new(alloc, name)?)))
}

fn literal_in(alloc: Global, inner: &Value) -> Result<Option<Expr>, PlanError>
    ensures { GivesOrMemory result (option_map Expr.Literal (form_of.literal (view inner.now))) }
{
    Ok(literal::literal_of_value(alloc, inner)?.map(Expr::Literal))
}

fn series(alloc: Global, inner: &Value) -> Result<Option<Expr>, PlanError>
    ensures { GivesOrMemory result
        (option_map (λ c. Expr.Literal (LiteralValue.Series c)) (column_in (view inner.now))) }
{
    let Some(column) = column_of_value(alloc, inner)? else {
        return Ok(None);
    };
    Ok(Some(Expr::Literal(LiteralValue::Series(column))))
}

/// The expression that the value stands for, in a box.
#[cycle(reading)]
fn boxed_in(alloc: Global, value: &Value) -> Result<Option<Boxed<Expr>>, PlanError>
    ensures { GivesOrMemory result (expr_of (view value.now)) }
{
    let Some(expr) = expr_in(alloc, value)? else {
        return Ok(None);
    };
    Ok(Some(boxed(alloc, expr)?))
}

#[cycle(reading)]
fn aliased(alloc: Global, items: &[Value]) -> Result<Option<Expr>, PlanError>
    ensures { GivesOrMemory result (form_of.aliased (parts_of (items_view items.now))) }
{
    let Some((inner, name)) = pair_of(items) else {
        return Ok(None);
    };
    let Some(name) = name.as_str() else {
        return Ok(None);
    };
    let Some(expr) = expr_in(alloc, inner)? else {
        return Ok(None);
    };
    Ok(Some(expr.alias(alloc, name)?))
}

#[cycle(reading)]
fn binary(alloc: Global, items: &[Value]) -> Result<Option<Expr>, PlanError>
    ensures { GivesOrMemory result (form_of.binary (parts_of (items_view items.now))) }
{
    let Some((l, op, r)) = triple_of(items) else {
        return Ok(None);
    };
    let Some(op) = operator_in(op) else {
        return Ok(None);
    };
    let Some(left) = boxed_in(alloc, l)? else {
        return Ok(None);
    };
    operated(alloc, left, op, r)
}

/// The operator over this left operand and what the value stands for.
#[cycle(reading)]
fn operated(
    alloc: Global,
    left: Boxed<Expr>,
    op: Operator,
    r: &Value,
) -> Result<Option<Expr>, PlanError>
    ensures { GivesOrMemory result
        (option_and_then (λ y. Some (Expr.BinaryExpr left op y)) (expr_of (view r.now))) }
{
    let Some(right) = boxed_in(alloc, r)? else {
        return Ok(None);
    };
    Ok(Some(Expr::BinaryExpr { left, op, right }))
}

fn operator_in(value: &Value) -> Option<Operator>
    ensures { result ≡ form_of.operator_in (view value.now) }
{
    operator::named(value.as_str()?)
}

#[cycle(reading)]
fn cast(alloc: Global, items: &[Value]) -> Result<Option<Expr>, PlanError>
    ensures { GivesOrMemory result (form_of.cast (parts_of (items_view items.now))) }
{
    let Some((inner, value_type, options)) = triple_of(items) else {
        return Ok(None);
    };
    let Some((value_type, options)) = cast_parts(value_type, options) else {
        return Ok(None);
    };
    let Some(expr) = expr_in(alloc, inner)? else {
        return Ok(None);
    };
    Ok(Some(build::cast(alloc, expr, value_type, options)?))
}

/// The type of a cast, and what it does with a value that the type lacks.
fn cast_parts(value_type: &Value, options: &Value) -> Option<(ValueType, CastOptions)>
    ensures { result ≡ form_of.cast_parts (view value_type.now) (view options.now) }
{
    let value_type = value_type_named(value_type.as_str()?)?;
    let options = names::cast_named(options.as_str()?)?;
    Some((value_type, options))
}

#[cycle(reading)]
fn ternary(alloc: Global, items: &[Value]) -> Result<Option<Expr>, PlanError>
    ensures { GivesOrMemory result (form_of.ternary (parts_of (items_view items.now))) }
{
    let Some((p, t, f)) = triple_of(items) else {
        return Ok(None);
    };
    let Some(predicate) = boxed_in(alloc, p)? else {
        return Ok(None);
    };
    choice(alloc, predicate, t, f)
}

/// The choice by this predicate between what two values stand for.
#[cycle(reading)]
fn choice(
    alloc: Global,
    predicate: Boxed<Expr>,
    t: &Value,
    f: &Value,
) -> Result<Option<Expr>, PlanError>
    ensures { GivesOrMemory result
        (option_and_then (λ y. option_and_then (λ z. Some (Expr.Ternary predicate y z)) (expr_of (view f.now))) (expr_of (view t.now))) }
{
    let Some(truthy) = boxed_in(alloc, t)? else {
        return Ok(None);
    };
    choice_between(alloc, predicate, truthy, f)
}

#[cycle(reading)]
fn choice_between(
    alloc: Global,
    predicate: Boxed<Expr>,
    truthy: Boxed<Expr>,
    f: &Value,
) -> Result<Option<Expr>, PlanError>
    ensures { GivesOrMemory result
        (option_and_then (λ z. Some (Expr.Ternary predicate truthy z)) (expr_of (view f.now))) }
{
    let Some(falsy) = boxed_in(alloc, f)? else {
        return Ok(None);
    };
    Ok(Some(Expr::Ternary {
        predicate,
        truthy,
        falsy,
    }))
}

#[cycle(reading)]
fn function(alloc: Global, items: &[Value]) -> Result<Option<Expr>, PlanError>
    ensures { GivesOrMemory result (form_of.function (parts_of (items_view items.now))) }
{
    let [name, inputs @ ..] = items else {
        return Ok(None);
    };
    let Some(function) = function_in(name) else {
        return Ok(None);
    };
    let Some(input) = exprs_in(alloc, inputs)? else {
        return Ok(None);
    };
    Ok(Some(build::function(function, input)))
}

fn function_in(value: &Value) -> Option<EvaluatedFunction>
    ensures { result ≡ form_of.function_in (view value.now) }
{
    names::function_named(value.as_str()?)
}

#[cycle(reading)]
fn exprs_in(alloc: Global, values: &[Value]) -> Result<Option<ExprList>, PlanError>
    ensures { GivesSeen (option_map (λ l. l.entries)) result
        (exprs_of (items_view values.now)) }
{
    let mut exprs = List::new(alloc);
    for value in values {
        let Some(expr) = expr_in(alloc, value)? else {
            return Ok(None);
        };
        exprs.try_push(expr)?;
    }
    Ok(Some(exprs))
}
