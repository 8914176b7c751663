//! Calls of elementwise kernels on columns that are given as plain data.
ghost use Rattle.std.specs.Prelude.{IsTrue, option_map};
ghost use Rattle.std.specs.Option.{option_copied};
ghost use Rattle.px_semantics.specs.Bits.{IsBitCount};
ghost use Rattle.px_semantics.specs.Rows.{Contents};
ghost use Rattle.px_elementwise.specs.Bounded.{IsBounded, IsBoundOf};

use px_column::Column;
use px_elementwise::{abs, bit_count, clip, fill_null, is_between, sign};
use px_test_columns::{Rows, Want, agrees, column, is_boolean_or_integer, wrong_call};
use px_types::{BitwiseFunction, ClosedInterval, PlanError, ValueType};
use std::alloc::Global;

/// A kernel on one column.
#[derive(Clone, Copy)]
pub enum Call {
    Abs,
    Sign,
    Count(BitwiseFunction),
}

fn is_bit_count(function: BitwiseFunction) -> bool
    ensures { IsTrue result → IsBitCount function }
{
    match function {
        BitwiseFunction::And | BitwiseFunction::Or | BitwiseFunction::Xor => false,
        _ => true,
    }
}

fn counted(alloc: Global, function: BitwiseFunction, a: &Column) -> Result<Column, PlanError> {
    if !is_bit_count(function) {
        return wrong_call();
    }
    if !is_boolean_or_integer(a.value_type()) {
        return wrong_call();
    }
    bit_count(alloc, function, a)
}

fn absolute(alloc: Global, a: &Column) -> Result<Column, PlanError> {
    if !a.value_type().is_integer() {
        return wrong_call();
    }
    abs(alloc, a)
}

fn signed(alloc: Global, a: &Column) -> Result<Column, PlanError> {
    if !a.value_type().is_integer() {
        return wrong_call();
    }
    sign(alloc, a)
}

fn answer(alloc: Global, call: Call, a: Rows) -> Result<Column, PlanError> {
    let a = column(alloc, "a", a)?;
    match call {
        Call::Abs => absolute(alloc, &a),
        Call::Sign => signed(alloc, &a),
        Call::Count(function) => counted(alloc, function, &a),
    }
}

/// Whether the kernel on these rows gives the wanted ones.
pub fn gives(alloc: Global, call: Call, a: Rows, want: Want) -> bool {
    agrees(answer(alloc, call, a), want)
}

fn filled_from(alloc: Global, a: &Column, fill: Rows) -> Result<Column, PlanError> {
    let fill = column(alloc, "b", fill)?;
    if a.value_type() != fill.value_type() {
        return wrong_call();
    }
    fill_null(alloc, a, &fill)
}

fn filled(alloc: Global, a: Rows, fill: Rows) -> Result<Column, PlanError> {
    let a = column(alloc, "a", a)?;
    filled_from(alloc, &a, fill)
}

/// Whether `fill_null` of these rows gives the wanted ones, or the wanted error.
pub fn fills(alloc: Global, a: Rows, fill: Rows, want: Want) -> bool {
    agrees(filled(alloc, a, fill), want)
}

fn between(
    alloc: Global,
    a: &Column,
    lower: &Column,
    upper: &Column,
    closed: ClosedInterval,
) -> Result<Column, PlanError> {
    if a.value_type() != lower.value_type() {
        return wrong_call();
    }
    if a.value_type() != upper.value_type() {
        return wrong_call();
    }
    is_between(alloc, a, lower, upper, closed)
}

fn below(
    alloc: Global,
    a: &Column,
    lower: &Column,
    upper: Rows,
    closed: ClosedInterval,
) -> Result<Column, PlanError> {
    let upper = column(alloc, "c", upper)?;
    between(alloc, a, lower, &upper, closed)
}

fn above(
    alloc: Global,
    a: &Column,
    lower: Rows,
    upper: Rows,
    closed: ClosedInterval,
) -> Result<Column, PlanError> {
    let lower = column(alloc, "b", lower)?;
    below(alloc, a, &lower, upper, closed)
}

fn inside(
    alloc: Global,
    a: Rows,
    lower: Rows,
    upper: Rows,
    closed: ClosedInterval,
) -> Result<Column, PlanError> {
    let a = column(alloc, "a", a)?;
    above(alloc, &a, lower, upper, closed)
}

/// Whether `is_between` of these rows gives the wanted ones, or the wanted error.
pub fn is_inside(
    alloc: Global,
    a: Rows,
    lower: Rows,
    upper: Rows,
    closed: ClosedInterval,
    want: Want,
) -> bool {
    agrees(inside(alloc, a, lower, upper, closed), want)
}

fn is_bounded(value_type: ValueType) -> bool
    ensures { IsTrue result → IsBounded value_type }
{
    match value_type {
        ValueType::Null | ValueType::Boolean => false,
        _ => true,
    }
}

fn is_bound_of(value_type: ValueType, bound: Option<&Column>) -> bool
    ensures { IsTrue result
        → IsBoundOf value_type (option_map (λ (c : Contents). c.values) (option_copied bound.entry)) }
{
    match bound {
        None => true,
        Some(column) => column.value_type() == value_type,
    }
}

fn clipped(
    alloc: Global,
    a: &Column,
    min: Option<&Column>,
    max: Option<&Column>,
) -> Result<Column, PlanError> {
    if !is_bounded(a.value_type()) {
        return wrong_call();
    }
    if !is_bound_of(a.value_type(), min) {
        return wrong_call();
    }
    if !is_bound_of(a.value_type(), max) {
        return wrong_call();
    }
    clip(alloc, a, min, max)
}

fn clipped_above(
    alloc: Global,
    a: &Column,
    min: Option<&Column>,
    max: Option<Rows>,
) -> Result<Column, PlanError> {
    match max {
        None => clipped(alloc, a, min, None),
        Some(rows) => {
            let max = column(alloc, "c", rows)?;
            clipped(alloc, a, min, Some(&max))
        }
    }
}

fn clipped_below(
    alloc: Global,
    a: &Column,
    min: Option<Rows>,
    max: Option<Rows>,
) -> Result<Column, PlanError> {
    match min {
        None => clipped_above(alloc, a, None, max),
        Some(rows) => {
            let min = column(alloc, "b", rows)?;
            clipped_above(alloc, a, Some(&min), max)
        }
    }
}

fn clip_answer(
    alloc: Global,
    a: Rows,
    min: Option<Rows>,
    max: Option<Rows>,
) -> Result<Column, PlanError> {
    let a = column(alloc, "a", a)?;
    clipped_below(alloc, &a, min, max)
}

/// Whether `clip` of these rows gives the wanted ones, or the wanted error.
pub fn clips(alloc: Global, a: Rows, min: Option<Rows>, max: Option<Rows>, want: Want) -> bool {
    agrees(clip_answer(alloc, a, min, max), want)
}
