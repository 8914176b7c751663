//! Calls of aggregates on columns that are given as plain data.

use px_aggregates::{all, any, count, first, last, null_count_column, product, sum};
use px_column::Column;
use px_test_columns::{
    Run, Scalar, is_boolean, is_boolean_or_integer, is_scalar, run_column, wrong_call,
};
use px_types::PlanError;
use std::alloc::Global;

/// An aggregate.
#[derive(Clone, Copy)]
pub enum Call {
    Any(bool),
    All(bool),
    NullCount,
    Count(bool),
    Sum,
    Product,
    First,
    Last,
}

fn any_or_all(alloc: Global, call: Call, a: &Column) -> Result<Column, PlanError> {
    if !is_boolean(a.value_type()) {
        return wrong_call();
    }
    match call {
        Call::Any(ignore_nulls) => any(alloc, a, ignore_nulls),
        Call::All(ignore_nulls) => all(alloc, a, ignore_nulls),
        _ => wrong_call(),
    }
}

fn total(alloc: Global, a: &Column) -> Result<Column, PlanError> {
    if !is_boolean_or_integer(a.value_type()) {
        return wrong_call();
    }
    sum(alloc, a)
}

fn product_of(alloc: Global, a: &Column) -> Result<Column, PlanError> {
    if !a.value_type().is_integer() {
        return wrong_call();
    }
    product(alloc, a)
}

fn answer(alloc: Global, call: Call, run: Run) -> Result<Column, PlanError> {
    let a = run_column(alloc, run)?;
    match call {
        Call::NullCount => null_count_column(alloc, &a),
        Call::Count(include_nulls) => count(alloc, &a, include_nulls),
        Call::Sum => total(alloc, &a),
        Call::Product => product_of(alloc, &a),
        Call::First => first(alloc, &a),
        Call::Last => last(alloc, &a),
        _ => any_or_all(alloc, call, &a),
    }
}

/// Whether the aggregate of these rows is the wanted row.
pub fn gives(alloc: Global, call: Call, run: Run, want: Scalar) -> bool {
    is_scalar(answer(alloc, call, run), want)
}
