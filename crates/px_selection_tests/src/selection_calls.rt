//! Calls of kernels on columns that are given as plain data.

use px_column::Column;
use px_selection::{append, drop_nulls, filter, gather, reverse, slice};
use px_test_columns::{Rows, Want, agrees, column, is_boolean, wrong_call};
use px_types::PlanError;
use std::alloc::Global;

fn filtered(alloc: Global, a: &Column, by: &Column) -> Result<Column, PlanError> {
    if !is_boolean(by.value_type()) {
        return wrong_call();
    }
    filter(alloc, a, by)
}

fn appended(alloc: Global, a: &Column, b: &Column) -> Result<Column, PlanError> {
    if a.value_type() != b.value_type() {
        return wrong_call();
    }
    append(alloc, a, b)
}

fn gathered(alloc: Global, a: &Column, idx: &Column, is_scalar: bool) -> Result<Column, PlanError> {
    if !idx.value_type().is_integer() {
        return wrong_call();
    }
    gather(alloc, a, idx, is_scalar)
}

fn sliced(
    alloc: Global,
    a: &Column,
    offset: &Column,
    length: &Column,
) -> Result<Column, PlanError> {
    if !offset.value_type().is_integer() {
        return wrong_call();
    }
    if !length.value_type().is_integer() {
        return wrong_call();
    }
    slice(alloc, a, offset, length)
}

/// A kernel with its operands after the first.
#[derive(Clone, Copy)]
pub enum Call<'a> {
    Reverse,
    DropNulls,
    Append(Rows<'a>),
    Filter(Rows<'a>),
    /// Indices, and whether a scalar is wanted.
    Gather(Rows<'a>, bool),
    /// The offset and the length.
    Slice(Rows<'a>, Rows<'a>),
}

fn with_third(alloc: Global, a: &Column, b: &Column, c: Rows) -> Result<Column, PlanError> {
    let c = column(alloc, "c", c)?;
    sliced(alloc, a, b, &c)
}

fn with_second(alloc: Global, call: Call, a: &Column, b: Rows) -> Result<Column, PlanError> {
    let b = column(alloc, "b", b)?;
    match call {
        Call::Append(_) => appended(alloc, a, &b),
        Call::Filter(_) => filtered(alloc, a, &b),
        Call::Gather(_, is_scalar) => gathered(alloc, a, &b, is_scalar),
        Call::Slice(_, length) => with_third(alloc, a, &b, length),
        _ => wrong_call(),
    }
}

fn answer(alloc: Global, call: Call, a: Rows) -> Result<Column, PlanError> {
    let a = column(alloc, "a", a)?;
    match call {
        Call::Reverse => reverse(alloc, &a),
        Call::DropNulls => drop_nulls(alloc, &a),
        Call::Append(b) => with_second(alloc, call, &a, b),
        Call::Filter(by) => with_second(alloc, call, &a, by),
        Call::Gather(indices, _) => with_second(alloc, call, &a, indices),
        Call::Slice(offset, _) => with_second(alloc, call, &a, offset),
    }
}

/// Whether the kernel on these rows gives the wanted ones, or the wanted error.
pub fn gives(alloc: Global, call: Call, a: Rows, want: Want) -> bool {
    agrees(answer(alloc, call, a), want)
}
