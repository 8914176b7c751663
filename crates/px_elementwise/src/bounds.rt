//! Nulls that are filled, and values beside bounds.
ghost use Rattle.std.specs.Prelude.{◌≡◌, IfOk, option_map};
ghost use Rattle.std.specs.Option.{option_copied};
ghost use Rattle.px_base.specs.Answer.{GivesOr};
ghost use Rattle.px_semantics.specs.Bounds.{fill_null_rows, raised_row, lowered_row, clip_rows, lower_test, upper_test, is_between_rows};
ghost use Rattle.px_semantics.specs.Comparisons.{IsComparison};
ghost use Rattle.px_semantics.specs.Logic.{value_row, tested_rows};
ghost use Rattle.px_semantics.specs.Rows.{Contents, broadcast_rows};
ghost use Rattle.px_column.specs.ColumnOf.{type_of, rows_of};
ghost use Rattle.px_column.specs.Buffers.{values_of};
ghost use Rattle.px_elementwise.specs.Bounded.{IsBounded, IsBoundOf};

use px_arrays::BooleanArray;
use px_column::{Buffer, Column};
use px_kernels::{compare_buffers, zip_with_buffers};
use px_types::{ClosedInterval, Operator, PlanError};
use std::alloc::{AllocError, Global};

/// Row by row whether it is not null, as a mask.
fn validity_mask(alloc: Global, a: &Buffer) -> Result<Buffer, AllocError>
    ensures { IfOk result (λ m. values_of m ≡ tested_rows value_row (values_of a.now)) }
{
    let valid = a.valid(alloc)?;
    let rows = BooleanArray::non_null(alloc, valid)?;
    Ok(Buffer::Boolean(rows))
}

/// Row by row the row of `a`, and where it is null that of `fill`: two buffers of one type. A buffer of one
/// row goes with each row of the other. `ShapeMismatch` where the lengths do not broadcast. Else the only
/// error is out of memory. As Polars' `fill_null` by an expression, but that both types are one.
pub fn fill_null_buffers(alloc: Global, a: &Buffer, fill: &Buffer) -> Result<Buffer, PlanError>
    requires { type_of a.now ≡ type_of fill.now }
    ensures { GivesOr PlanError.ShapeMismatch (λ c. values_of c) result
        (fill_null_rows (values_of a.now) (values_of fill.now)) }
{
    let mask = validity_mask(alloc, a)?;
    zip_with_buffers(alloc, &mask, a, fill)
}

/// The same of two columns, under the name of the first.
pub fn fill_null(alloc: Global, a: &Column, fill: &Column) -> Result<Column, PlanError>
    requires { a.now.values.value_type ≡ fill.now.values.value_type }
    ensures name { IfOk result (λ c. c.name ≡ a.now.name) }
    ensures rows { GivesOr PlanError.ShapeMismatch (λ c. c.values) result
        (fill_null_rows a.now.values fill.now.values) }
{
    let buffer = fill_null_buffers(alloc, a.buffer(), fill.buffer())?;
    let name = a.name().try_clone(alloc)?;
    Ok(Column::new(name, buffer))
}

/// The comparison with the lower end of an interval.
fn lower_test(closed: ClosedInterval) -> Operator
    ensures test { result ≡ lower_test closed }
    ensures comparison { IsComparison result }
{
    match closed {
        ClosedInterval::Both | ClosedInterval::Left => Operator::GtEq,
        ClosedInterval::Right | ClosedInterval::None => Operator::Gt,
    }
}

/// The comparison with the upper end of an interval.
fn upper_test(closed: ClosedInterval) -> Operator
    ensures test { result ≡ upper_test closed }
    ensures comparison { IsComparison result }
{
    match closed {
        ClosedInterval::Both | ClosedInterval::Right => Operator::LtEq,
        ClosedInterval::Left | ClosedInterval::None => Operator::Lt,
    }
}

/// Row by row whether the value is inside the interval, Boolean rows: three buffers of one type. The two
/// comparisons are joined by Kleene logic, so that a value past one end is outside though the other is null.
/// A buffer of one row goes with each row of the others. `ShapeMismatch` where the lengths do not broadcast.
/// Else the only error is out of memory. As Polars' `is_between`.
pub fn is_between_buffers(
    alloc: Global,
    a: &Buffer,
    lower: &Buffer,
    upper: &Buffer,
    closed: ClosedInterval,
) -> Result<Buffer, PlanError>
    requires lower { type_of a.now ≡ type_of lower.now }
    requires upper { type_of a.now ≡ type_of upper.now }
    ensures { GivesOr PlanError.ShapeMismatch (λ c. values_of c) result
        (is_between_rows closed (values_of a.now) (values_of lower.now) (values_of upper.now)) }
{
    let above = compare_buffers(alloc, lower_test(closed), a, lower)?;
    let below = compare_buffers(alloc, upper_test(closed), a, upper)?;
    above.logic(alloc, Operator::And, &below)
}

/// The same of three columns, under the name of the first.
pub fn is_between(
    alloc: Global,
    a: &Column,
    lower: &Column,
    upper: &Column,
    closed: ClosedInterval,
) -> Result<Column, PlanError>
    requires lower { a.now.values.value_type ≡ lower.now.values.value_type }
    requires upper { a.now.values.value_type ≡ upper.now.values.value_type }
    ensures name { IfOk result (λ c. c.name ≡ a.now.name) }
    ensures rows { GivesOr PlanError.ShapeMismatch (λ c. c.values) result
        (is_between_rows closed a.now.values lower.now.values upper.now.values) }
{
    let buffer = is_between_buffers(alloc, a.buffer(), lower.buffer(), upper.buffer(), closed)?;
    let name = a.name().try_clone(alloc)?;
    Ok(Column::new(name, buffer))
}

/// Row by row the value, and the bound where the value is less.
fn raised_buffers(alloc: Global, a: &Buffer, low: &Buffer) -> Result<Buffer, PlanError>
    requires { type_of a.now ≡ type_of low.now }
    ensures { GivesOr PlanError.ShapeMismatch (λ c. values_of c) result
        (broadcast_rows (type_of a.now) raised_row (rows_of a.now) (rows_of low.now)) }
{
    let below = compare_buffers(alloc, Operator::Lt, a, low)?;
    zip_with_buffers(alloc, &below, low, a)
}

/// Row by row the value, and the bound where the value is greater.
fn lowered_buffers(alloc: Global, a: &Buffer, high: &Buffer) -> Result<Buffer, PlanError>
    requires { type_of a.now ≡ type_of high.now }
    ensures { GivesOr PlanError.ShapeMismatch (λ c. values_of c) result
        (broadcast_rows (type_of a.now) lowered_row (rows_of a.now) (rows_of high.now)) }
{
    let above = compare_buffers(alloc, Operator::Gt, a, high)?;
    zip_with_buffers(alloc, &above, high, a)
}

/// Row by row the value, but the lower bound where it is less, and then the upper bound where it is greater:
/// a buffer of an integer type or of strings, and bounds of its type. A null value stays, and a null bound
/// does not bind. A buffer of one row goes with each row of the others. `ShapeMismatch` where the lengths do
/// not broadcast. Else the only error is out of memory. As Polars' `clip`.
pub fn clip_buffers(
    alloc: Global,
    a: &Buffer,
    min: Option<&Buffer>,
    max: Option<&Buffer>,
) -> Result<Buffer, PlanError>
    requires bounded { IsBounded (type_of a.now) }
    requires min { IsBoundOf (type_of a.now) (option_map (λ b. values_of b) (option_copied min)) }
    requires max { IsBoundOf (type_of a.now) (option_map (λ b. values_of b) (option_copied max)) }
    ensures { GivesOr PlanError.ShapeMismatch (λ c. values_of c) result
        (clip_rows (values_of a.now) (option_map (λ b. values_of b) (option_copied min.entry))
        (option_map (λ b. values_of b) (option_copied max.entry))) }
{
    match (min, max) {
        (None, None) => a.try_clone(alloc),
        (Some(low), None) => raised_buffers(alloc, a, low),
        (None, Some(high)) => lowered_buffers(alloc, a, high),
        (Some(low), Some(high)) => {
            let raised = raised_buffers(alloc, a, low)?;
            lowered_buffers(alloc, &raised, high)
        }
    }
}

/// The buffer of a column, if there is one.
fn buffer_of<'a>(column: Option<&'a Column>) -> Option<&'a Buffer>
    ensures { option_map (λ b. values_of b) (option_copied result)
        ≡ option_map (λ (c : Contents). c.values) (option_copied column.entry) }
{
    match column {
        Some(column) => Some(column.buffer()),
        None => None,
    }
}

/// The same of columns, under the name of the first.
pub fn clip(
    alloc: Global,
    a: &Column,
    min: Option<&Column>,
    max: Option<&Column>,
) -> Result<Column, PlanError>
    requires bounded { IsBounded a.now.values.value_type }
    requires min { IsBoundOf a.now.values.value_type
        (option_map (λ (c : Contents). c.values) (option_copied min)) }
    requires max { IsBoundOf a.now.values.value_type
        (option_map (λ (c : Contents). c.values) (option_copied max)) }
    ensures name { IfOk result (λ c. c.name ≡ a.now.name) }
    ensures rows { GivesOr PlanError.ShapeMismatch (λ c. c.values) result
        (clip_rows a.now.values (option_map (λ (c : Contents). c.values) (option_copied min.entry))
        (option_map (λ (c : Contents). c.values) (option_copied max.entry))) }
{
    let buffer = clip_buffers(alloc, a.buffer(), buffer_of(min), buffer_of(max))?;
    let name = a.name().try_clone(alloc)?;
    Ok(Column::new(name, buffer))
}
