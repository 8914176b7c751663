//! What one node gives over the rows of its inputs.
ghost use Rattle.std.specs.Prelude.{◌≡◌, ◌⊎◌, IfOk, IfErr, IfSome, IsSome, Some, None};
ghost use Rattle.px_base.specs.Answer.{GivesOr};
ghost use Rattle.px_semantics.specs.Casts.{HasCast};
ghost use Rattle.px_types.specs.ValueTypes.{value_type_of};
ghost use Rattle.px_functions.specs.declared.evaluated.EvaluatedFunction.TheVariants.{Fused};
ghost use Rattle.px_meaning.specs.Schema.{Fits, schema_of};
ghost use Rattle.px_eval.specs.Own.{IsReady, IsAnswer, IsReason, IsOwned, IsFunction, IsOfOne, cast_at};
ghost use Rattle.px_eval.specs.Table.{rows_at, values_of};

use crate::functions::{call_one, fused};
use crate::operators::{binary, cast, select_by_mask};
use crate::scalars::literal;
use crate::table::{Rows, Table};
use px_arena::{AExpr, Node};
use px_column::{Buffer, Frame};
use px_expr::Kernels;
use px_functions::EvaluatedFunction;
use px_types::{CastOptions, DataType, FusedOperator, PlanError};
use std::alloc::Global;

/// The buffer as an answer.
fn owned<'f>(alloc: Global, buffer: Result<Buffer, PlanError>) -> Result<Rows<'f>, PlanError>
    ensures { IsOwned result buffer }
{
    match buffer {
        Ok(buffer) => Rows::new(alloc, buffer),
        Err(e) => Err(e),
    }
}

/// The rows of a function of one input.
fn own_one<'f, K: Kernels>(
    alloc: Global,
    frame: &Frame,
    kernels: &K,
    expr: &AExpr,
    function: EvaluatedFunction,
    table: &Table<'f>,
) -> Result<Rows<'f>, PlanError>
    requires fits { Fits frame.now (schema_of frame.now) }
    requires ready { IsReady (K.definitions kernels.now) frame.now table.now expr.now }
    requires is { IsFunction expr.now function }
    requires one { IsOfOne function }
    ensures ok { IfOk result (λ r. IsAnswer (K.definitions kernels.now) frame.now table.now expr.now r) }
    ensures err { IfErr result (λ e. IsReason (K.definitions kernels.now) frame.now table.now expr.now e) }
{
    let only = table.at(expr.input(0));
    owned(alloc, call_one(alloc, function, only))
}

/// The rows of a fused operator.
fn own_fused<'f, K: Kernels>(
    alloc: Global,
    frame: &Frame,
    kernels: &K,
    expr: &AExpr,
    op: FusedOperator,
    table: &Table<'f>,
) -> Result<Rows<'f>, PlanError>
    requires fits { Fits frame.now (schema_of frame.now) }
    requires ready { IsReady (K.definitions kernels.now) frame.now table.now expr.now }
    requires is { IsFunction expr.now (Fused op) }
    ensures ok { IfOk result (λ r. IsAnswer (K.definitions kernels.now) frame.now table.now expr.now r) }
    ensures err { IfErr result (λ e. IsReason (K.definitions kernels.now) frame.now table.now expr.now e) }
{
    let first = table.at(expr.input(0));
    let second = table.at(expr.input(1));
    let third = table.at(expr.input(2));
    owned(alloc, fused(alloc, op, first, second, third))
}

/// The rows of a function.
fn own_function<'f, K: Kernels>(
    alloc: Global,
    frame: &Frame,
    kernels: &K,
    expr: &AExpr,
    function: EvaluatedFunction,
    table: &Table<'f>,
) -> Result<Rows<'f>, PlanError>
    requires fits { Fits frame.now (schema_of frame.now) }
    requires ready { IsReady (K.definitions kernels.now) frame.now table.now expr.now }
    requires is { IsFunction expr.now function }
    ensures ok { IfOk result (λ r. IsAnswer (K.definitions kernels.now) frame.now table.now expr.now r) }
    ensures err { IfErr result (λ e. IsReason (K.definitions kernels.now) frame.now table.now expr.now e) }
{
    match function {
        EvaluatedFunction::Fused(op) => own_fused(alloc, frame, kernels, expr, op, table),
        EvaluatedFunction::Boolean(_) => own_one(alloc, frame, kernels, expr, function, table),
        EvaluatedFunction::Negate => own_one(alloc, frame, kernels, expr, function, table),
    }
}

/// The rows of the place in another type. Where that is their own type they are not copied.
fn cast_own_type<'f>(
    alloc: Global,
    input: Node,
    dtype: &DataType,
    options: CastOptions,
    table: &Table<'f>,
) -> Result<Rows<'f>, PlanError>
    requires filled { IsSome (rows_at table.now input.0) }
    requires castable { IfSome (rows_at table.now input.0) (λ a. HasCast a.value_type (value_type_of dtype.now)) }
    ensures answer { GivesOr PlanError.InvalidCast (λ r. values_of r) result
        (cast_at table.now input.0 options dtype.now) }
{
    let from = table.at(input);
    // The clauses of its length say that the rows are of its type.
    let _len = from.len();
    if dtype.value_type() == Some(from.value_type()) {
        return table.share(input);
    }
    owned(alloc, cast(alloc, from, dtype, options))
}

/// The node's rows.
pub fn own_rows<'f, K: Kernels>(
    alloc: Global,
    frame: &'f Frame,
    kernels: &K,
    expr: &'f AExpr,
    table: &Table<'f>,
) -> Result<Rows<'f>, PlanError>
    requires fits { Fits frame.now (schema_of frame.now) }
    requires ready { IsReady (K.definitions kernels.now) frame.now table.now expr.now }
    ensures ok { IfOk result (λ r. IsAnswer (K.definitions kernels.now) frame.now table.now expr.now r) }
    ensures err { IfErr result (λ e. IsReason (K.definitions kernels.now) frame.now table.now expr.now e) }
{
    match expr {
        AExpr::Alias(input, _) => table.share(*input),
        AExpr::Column(name) => match frame.column(name.as_str()) {
            Some(column) => Ok(Rows::from_column(column)),
            None => unreachable!(),
        },
        AExpr::Literal(value) => match literal(alloc, value) {
            Ok(rows) => Ok(rows),
            Err(e) => Err(e),
        },
        AExpr::BinaryExpr { left, op, right } => {
            let a = table.at(*left);
            let b = table.at(*right);
            owned(alloc, binary(alloc, *op, a, b))
        }
        AExpr::Cast {
            expr: input,
            dtype,
            options,
        } => cast_own_type(alloc, *input, dtype, *options, table),
        AExpr::Ternary {
            predicate,
            truthy,
            falsy,
        } => {
            let mask = table.at(*predicate);
            let first = table.at(*truthy);
            let second = table.at(*falsy);
            owned(alloc, select_by_mask(alloc, mask, first, second))
        }
        AExpr::Function { function, .. } => match function.evaluated() {
            Some(own) => own_function(alloc, frame, kernels, expr, own, table),
            None => unreachable!(),
        },
        AExpr::Gather { .. } => unreachable!(),
        AExpr::Slice { .. } => unreachable!(),
        AExpr::Filter { .. } => unreachable!(),
        AExpr::Agg(_) => unreachable!(),
        AExpr::AnonymousFunction { .. } => unreachable!(),
        AExpr::Len => unreachable!(),
    }
}
