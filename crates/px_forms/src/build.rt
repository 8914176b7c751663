//! Expressions and values, built from their parts.
ghost use Rattle.std.specs.Prelude.{◌≡◌, ◌∷◌, [], codes, map};
ghost use Rattle.serde_json.specs.Data.{string, array};
ghost use Rattle.serde_json.specs.View.{view, items_of};
ghost use Rattle.px_base.specs.Answer.{GivesOrMemory, GivesSeen};
ghost use Rattle.px_types.specs.ValueTypes.{dtype_of};
ghost use Rattle.px_json.specs.Built.{single_member};
ghost use Rattle.px_forms.specs.Form.{element_wise};
ghost use Rattle.px_functions.specs.Evaluated.{of_evaluated};
ghost use Rattle.px_forms.specs.Names.{function_text};
ghost use Rattle.px_forms.specs.Written as written;

use crate::literal::{self, LiteralType};
use crate::{names, operator};
use px_expr::{Expr, ExprList};
use px_functions::{EvaluatedFunction, FunctionExpr};
use px_json::{pair, single_member, text_value, triple, value_type_name};
use px_types::{
    ApplyOptions, CastOptions, FmtName, FunctionFlags, FunctionOptions, Operator, PlanError,
    ValueType, boxed,
};
use serde_json::{Value, json};
use std::alloc::Global;

pub(crate) fn cast(
    alloc: Global,
    expr: Expr,
    value_type: ValueType,
    options: CastOptions,
) -> Result<Expr, PlanError>
    ensures { GivesOrMemory result (Expr.Cast expr (dtype_of value_type) options) }
{
    let expr = boxed(alloc, expr)?;
    let dtype = value_type.dtype();
    Ok(Expr::Cast {
        expr,
        dtype,
        options,
    })
}

fn element_wise() -> FunctionOptions
    ensures { result ≡ element_wise }
{
    FunctionOptions {
        collect_groups: ApplyOptions::ElementWise,
        flags: FunctionFlags::default(),
        fmt_str: FmtName::Empty,
        cast_options: None,
    }
}

/// The function over its inputs, element by element.
pub(crate) fn function(function: EvaluatedFunction, input: ExprList) -> Expr
    ensures { result ≡ Expr.Function input (of_evaluated function) element_wise }
{
    Expr::Function {
        input,
        function: FunctionExpr::from(function),
        options: element_wise(),
    }
}

pub(crate) fn column_value(alloc: Global, name: &str) -> Result<Value, PlanError>
    ensures { GivesSeen view result (single_member (codes "col") (string name.now)) }
{
    let name = text_value(alloc, name)?;
    single_member(alloc, "col", name)
}

pub(crate) fn bare(alloc: Global, value: Value) -> Result<Value, PlanError>
    ensures { GivesSeen view result (written.bare (view value)) }
{
    single_member(alloc, "lit", value)
}

pub(crate) fn typed(
    alloc: Global,
    value_type: LiteralType,
    value: Value,
) -> Result<Value, PlanError>
    ensures { GivesSeen view result (written.typed value_type (view value)) }
{
    let value_type = literal::type_name(value_type);
    let literal = json!(in alloc; {"dtype": value_type, "value": value})?;
    bare(alloc, literal)
}

pub(crate) fn alias(alloc: Global, input: Value, name: &str) -> Result<Value, PlanError>
    ensures { GivesSeen view result (written.alias_data (view input) name.now) }
{
    let name = text_value(alloc, name)?;
    let items = pair(alloc, input, name)?;
    single_member(alloc, "alias", items)
}

pub(crate) fn binary(
    alloc: Global,
    left: Value,
    op: Operator,
    right: Value,
) -> Result<Value, PlanError>
    ensures { GivesSeen view result (written.binary_data (view left) op (view right)) }
{
    let op = text_value(alloc, operator::name_of(op))?;
    let items = triple(alloc, left, op, right)?;
    single_member(alloc, "binary", items)
}

pub(crate) fn cast_value(
    alloc: Global,
    input: Value,
    value_type: ValueType,
    options: CastOptions,
) -> Result<Value, PlanError>
    ensures { GivesSeen view result (written.cast_data (view input) value_type options) }
{
    let value_type = text_value(alloc, value_type_name(value_type))?;
    let options = text_value(alloc, names::cast_name(options))?;
    let items = triple(alloc, input, value_type, options)?;
    single_member(alloc, "cast", items)
}

pub(crate) fn ternary_value(
    alloc: Global,
    predicate: Value,
    truthy: Value,
    falsy: Value,
) -> Result<Value, PlanError>
    ensures { GivesSeen view result
        (written.ternary_data (view predicate) (view truthy) (view falsy)) }
{
    let items = triple(alloc, predicate, truthy, falsy)?;
    single_member(alloc, "when", items)
}

/// The list that a function's inputs are written after: its name alone.
pub(crate) fn function_front(
    alloc: Global,
    function: EvaluatedFunction,
) -> Result<Vec<Value>, PlanError>
    ensures { GivesSeen (λ v. map view v.items) result (string (function_text function) ∷ []) }
{
    let mut items = Vec::new(alloc);
    let text = text_value(alloc, names::function_text(function))?;
    items.push(text)?;
    Ok(items)
}

/// The function's name, and its inputs after it in `items`.
pub(crate) fn function_value(alloc: Global, items: Vec<Value>) -> Result<Value, PlanError>
    ensures { GivesSeen view result (single_member (codes "fn") (array (items_of (map view items.items)))) }
{
    single_member(alloc, "fn", Value::from(items))
}
