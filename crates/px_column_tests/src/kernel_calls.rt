//! Calls of kernels on columns that are given as plain data.
ghost use Rattle.std.specs.Prelude.{IsTrue};
ghost use Rattle.px_semantics.specs.Arithmetic.{IsArithmetic};
ghost use Rattle.px_semantics.specs.Casts.{IsScalar};
ghost use Rattle.px_semantics.specs.Comparisons.{IsComparison};
ghost use Rattle.px_kernels.specs.OperandTypes.{IsSigned};

use px_column::Column;
use px_functions::EvaluatedBoolean;
use px_kernels::{
    arith, cast, compare, fused, is_not_null, is_null, kleene_and, kleene_or, kleene_xor, negate,
    negate_bitwise, zip_with,
};
use px_test_columns::{Rows, Want, agrees, column, is_boolean, is_boolean_or_integer, wrong_call};
use px_types::{CastOptions, FusedOperator, Operator, PlanError, ValueType};
use std::alloc::Global;

fn is_signed(value_type: ValueType) -> bool
    ensures { IsTrue result → IsSigned value_type }
{
    match value_type {
        ValueType::Int8 | ValueType::Int16 | ValueType::Int32 | ValueType::Int64 => true,
        _ => false,
    }
}

fn is_scalar(value_type: ValueType) -> bool
    ensures { IsTrue result → IsScalar value_type }
{
    match value_type {
        ValueType::String => false,
        _ => true,
    }
}

fn is_logic(op: Operator) -> bool {
    match op {
        Operator::And | Operator::Or | Operator::Xor => true,
        _ => false,
    }
}

fn is_arithmetic(op: Operator) -> bool
    ensures { IsTrue result → IsArithmetic op }
{
    match op {
        Operator::Plus | Operator::Minus | Operator::Multiply => true,
        Operator::Divide | Operator::FloorDivide | Operator::Modulus => true,
        _ => false,
    }
}

fn is_comparison(op: Operator) -> bool
    ensures { IsTrue result → IsComparison op }
{
    match op {
        Operator::Eq | Operator::NotEq | Operator::EqValidity | Operator::NotEqValidity => true,
        Operator::Lt | Operator::LtEq | Operator::Gt | Operator::GtEq => true,
        _ => false,
    }
}

fn negated(alloc: Global, a: &Column) -> Result<Column, PlanError> {
    if !is_signed(a.value_type()) {
        return wrong_call();
    }
    negate(alloc, a)
}

fn inverse(alloc: Global, a: &Column) -> Result<Column, PlanError> {
    if !is_boolean_or_integer(a.value_type()) {
        return wrong_call();
    }
    negate_bitwise(alloc, a)
}

fn predicate(alloc: Global, function: EvaluatedBoolean, a: &Column) -> Result<Column, PlanError> {
    match function {
        EvaluatedBoolean::IsNull => is_null(alloc, a),
        EvaluatedBoolean::IsNotNull => is_not_null(alloc, a),
        EvaluatedBoolean::Not => inverse(alloc, a),
    }
}

fn logic(alloc: Global, op: Operator, a: &Column, b: &Column) -> Result<Column, PlanError> {
    if !is_boolean_or_integer(a.value_type()) {
        return wrong_call();
    }
    if a.value_type() != b.value_type() {
        return wrong_call();
    }
    match op {
        Operator::And => kleene_and(alloc, a, b),
        Operator::Or => kleene_or(alloc, a, b),
        _ => kleene_xor(alloc, a, b),
    }
}

/// The column as another type.
fn cast_column(
    alloc: Global,
    a: &Column,
    to: ValueType,
    options: CastOptions,
) -> Result<Column, PlanError> {
    if a.value_type() == to {
        return cast(alloc, a, &to.dtype(), options);
    }
    if a.value_type() == ValueType::Null {
        return cast(alloc, a, &to.dtype(), options);
    }
    if !is_scalar(a.value_type()) {
        return wrong_call();
    }
    if !is_scalar(to) {
        return wrong_call();
    }
    cast(alloc, a, &to.dtype(), options)
}

/// Logic, arithmetic or a comparison.
fn elementwise_values(
    alloc: Global,
    op: Operator,
    a: &Column,
    b: &Column,
) -> Result<Column, PlanError> {
    if is_logic(op) {
        return logic(alloc, op, a, b);
    }
    if a.value_type() != b.value_type() {
        return wrong_call();
    }
    if is_comparison(op) {
        return compare(alloc, op, a, b);
    }
    if !a.value_type().is_integer() {
        return wrong_call();
    }
    if !is_arithmetic(op) {
        return wrong_call();
    }
    arith(alloc, op, a, b)
}

fn selected_rows(
    alloc: Global,
    mask: &Column,
    a: &Column,
    b: &Column,
) -> Result<Column, PlanError> {
    if !is_boolean(mask.value_type()) {
        return wrong_call();
    }
    if a.value_type() != b.value_type() {
        return wrong_call();
    }
    zip_with(alloc, mask, a, b)
}

fn form(
    alloc: Global,
    op: FusedOperator,
    a: &Column,
    b: &Column,
    c: &Column,
) -> Result<Column, PlanError> {
    if !a.value_type().is_integer() {
        return wrong_call();
    }
    if a.value_type() != b.value_type() {
        return wrong_call();
    }
    if b.value_type() != c.value_type() {
        return wrong_call();
    }
    fused(alloc, op, a, b, c)
}

/// A kernel.
#[derive(Clone, Copy)]
pub enum Call {
    Negate,
    Test(EvaluatedBoolean),
    Cast(ValueType, CastOptions),
    /// Logic, arithmetic or a comparison.
    Pair(Operator),
    /// The first or the second, by the mask that comes last.
    Selection,
    Fused(FusedOperator),
}

fn with_third(
    alloc: Global,
    call: Call,
    a: &Column,
    b: &Column,
    c: Rows,
) -> Result<Column, PlanError> {
    let c = column(alloc, "c", c)?;
    match call {
        Call::Fused(op) => form(alloc, op, a, b, &c),
        _ => selected_rows(alloc, &c, a, b),
    }
}

fn with_second(
    alloc: Global,
    call: Call,
    a: &Column,
    b: Rows,
    c: Rows,
) -> Result<Column, PlanError> {
    let b = column(alloc, "b", b)?;
    match call {
        Call::Pair(op) => elementwise_values(alloc, op, a, &b),
        _ => with_third(alloc, call, a, &b, c),
    }
}

fn answer(alloc: Global, call: Call, a: Rows, b: Rows, c: Rows) -> Result<Column, PlanError> {
    let a = column(alloc, "a", a)?;
    match call {
        Call::Negate => negated(alloc, &a),
        Call::Test(function) => predicate(alloc, function, &a),
        Call::Cast(to, options) => cast_column(alloc, &a, to, options),
        _ => with_second(alloc, call, &a, b, c),
    }
}

/// Whether the kernel on these rows, of which it takes so many as it needs, gives the wanted ones, or
/// the wanted error.
pub fn gives(alloc: Global, call: Call, a: Rows, b: Rows, c: Rows, want: Want) -> bool {
    agrees(answer(alloc, call, a, b, c), want)
}
