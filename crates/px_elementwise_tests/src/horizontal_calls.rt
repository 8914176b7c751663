//! Calls of kernels across columns that are given as plain data.
ghost use Rattle.std.specs.Prelude.{IsTrue};
ghost use Rattle.px_horizontals.specs.Inputs.{HaveType, values_of_columns};

use px_column::Column;
use px_horizontals::{
    all_horizontal, any_horizontal, coalesce, max_horizontal, min_horizontal, sum_horizontal,
};
use px_test_columns::{Rows, Want, agrees, column, is_boolean_or_integer, wrong_call};
use px_types::{PlanError, ValueType};
use std::alloc::Global;

/// A kernel across columns.
#[derive(Clone, Copy)]
pub enum Across {
    First,
    All,
    Any,
    Sum(bool),
    Min,
    Max,
}

fn columns(alloc: Global, inputs: &[Rows]) -> Result<Vec<Column>, PlanError> {
    let mut columns = Vec::with_capacity(alloc, inputs.len())?;
    for rows in inputs {
        columns.push(column(alloc, "a", *rows)?)?;
    }
    Ok(columns)
}

fn have_type(columns: &[Column], value_type: ValueType) -> bool
    ensures { IsTrue result → HaveType value_type (values_of_columns columns.now) }
{
    let [first, rest @ ..] = columns else {
        return true;
    };
    if first.value_type() != value_type {
        return false;
    }
    have_type(rest, value_type)
}

fn across_booleans(alloc: Global, call: Across, inputs: &[Column]) -> Result<Column, PlanError> {
    if inputs.is_empty() {
        return wrong_call();
    }
    if !have_type(inputs, ValueType::Boolean) {
        return wrong_call();
    }
    match call {
        Across::All => all_horizontal(alloc, inputs),
        _ => any_horizontal(alloc, inputs),
    }
}

fn across_numbers(
    alloc: Global,
    inputs: &[Column],
    ignore_nulls: bool,
) -> Result<Column, PlanError> {
    if inputs.is_empty() {
        return wrong_call();
    }
    let value_type = inputs[0].value_type();
    if !have_type(inputs, value_type) {
        return wrong_call();
    }
    if !is_boolean_or_integer(value_type) {
        return wrong_call();
    }
    sum_horizontal(alloc, inputs, ignore_nulls)
}

fn across_columns(alloc: Global, call: Across, inputs: &[Column]) -> Result<Column, PlanError> {
    if inputs.is_empty() {
        return wrong_call();
    }
    if !have_type(inputs, inputs[0].value_type()) {
        return wrong_call();
    }
    match call {
        Across::First => coalesce(alloc, inputs),
        Across::Min => min_horizontal(alloc, inputs),
        Across::Max => max_horizontal(alloc, inputs),
        Across::Sum(ignore_nulls) => across_numbers(alloc, inputs, ignore_nulls),
        _ => across_booleans(alloc, call, inputs),
    }
}

fn answer(alloc: Global, call: Across, inputs: &[Rows]) -> Result<Column, PlanError> {
    let inputs = columns(alloc, inputs)?;
    across_columns(alloc, call, inputs.as_slice())
}

/// Whether the kernel across these columns gives the wanted rows, or the wanted error.
pub fn goes_across(alloc: Global, call: Across, inputs: &[Rows], want: Want) -> bool {
    agrees(answer(alloc, call, inputs), want)
}
