//! Kernels over columns, place by place: the first value, the least, the greatest, and whether all or any are true.
ghost use Rattle.std.specs.Prelude.{◌≡◌, ◌<◌, length, IfOk};
ghost use Rattle.px_base.specs.Answer.{GivesOr};
ghost use Rattle.px_types.specs.declared.value_type.ValueType.TheVariants.{Boolean};
ghost use Rattle.px_semantics.specs.Horizontals.{coalesce_rows, min_horizontal_rows, max_horizontal_rows, all_horizontal_rows, any_horizontal_rows};
ghost use Rattle.px_semantics.specs.Logic.{and_row, or_row};
ghost use Rattle.px_semantics.specs.Rows.{IsBoolean};
ghost use Rattle.px_column.specs.Buffers.{values_of};
ghost use Rattle.px_horizontals.specs.Choices.{chosen};
ghost use Rattle.px_horizontals.specs.Inputs.{values_of_buffers, values_of_columns, first_type, first_name, HaveType};
ghost use Rattle.px_horizontals.specs.declared.choices.Choice.TheVariants as choice;

use crate::choices::{Choice, chosen_rows};
use crate::folds::{Fold, folded, folded_columns};
use px_column::{Buffer, Column};
use px_types::{Operator, PlanError};
use std::alloc::Global;

/// The first value.
struct FirstValue;

/// The least value.
struct LeastValue;

/// The greatest value.
struct GreatestValue;

/// Whether all are true.
struct AllTrue;

/// Whether one is true.
struct AnyTrue;

impl Fold for FirstValue {
    ghost takes = { λ j k. k ≡ j };

    ghost step = { λ k. chosen choice.First };

    fn combine(alloc: Global, total: &Buffer, input: &Buffer) -> Result<Buffer, PlanError> {
        chosen_rows(alloc, Choice::First, total, input)
    }
}

impl Fold for LeastValue {
    ghost takes = { λ j k. k ≡ j };

    ghost step = { λ k. chosen choice.Least };

    fn combine(alloc: Global, total: &Buffer, input: &Buffer) -> Result<Buffer, PlanError> {
        chosen_rows(alloc, Choice::Least, total, input)
    }
}

impl Fold for GreatestValue {
    ghost takes = { λ j k. k ≡ j };

    ghost step = { λ k. chosen choice.Greatest };

    fn combine(alloc: Global, total: &Buffer, input: &Buffer) -> Result<Buffer, PlanError> {
        chosen_rows(alloc, Choice::Greatest, total, input)
    }
}

impl Fold for AllTrue {
    ghost takes = { λ j k. IsBoolean j × (k ≡ j) };

    ghost step = { λ k. and_row };

    fn combine(alloc: Global, total: &Buffer, input: &Buffer) -> Result<Buffer, PlanError> {
        total.logic(alloc, Operator::And, input)
    }
}

impl Fold for AnyTrue {
    ghost takes = { λ j k. IsBoolean j × (k ≡ j) };

    ghost step = { λ k. or_row };

    fn combine(alloc: Global, total: &Buffer, input: &Buffer) -> Result<Buffer, PlanError> {
        total.logic(alloc, Operator::Or, input)
    }
}

/// Place by place the first row that is not null, null where all are: at least one buffer, all of one type.
/// A buffer of one row goes with each row of the others. `ShapeMismatch` where the lengths do not broadcast.
/// Else the only error is out of memory. As Polars' `coalesce`, but that all types are one.
pub fn coalesce_buffers(alloc: Global, inputs: &[&Buffer]) -> Result<Buffer, PlanError>
    requires some { 0 < length inputs.now }
    requires same { HaveType (first_type (values_of_buffers inputs.now)) (values_of_buffers inputs.now) }
    ensures { GivesOr PlanError.ShapeMismatch values_of result
        (coalesce_rows (first_type (values_of_buffers inputs.now)) (values_of_buffers inputs.now)) }
{
    folded::<FirstValue>(alloc, inputs)
}

/// The same of columns, under the name of the first.
pub fn coalesce(alloc: Global, inputs: &[Column]) -> Result<Column, PlanError>
    requires some { 0 < length inputs.now }
    requires same { HaveType (first_type (values_of_columns inputs.now)) (values_of_columns inputs.now) }
    ensures name { IfOk result (λ c. c.name ≡ first_name inputs.now) }
    ensures rows { GivesOr PlanError.ShapeMismatch (λ c. c.values) result
        (coalesce_rows (first_type (values_of_columns inputs.now)) (values_of_columns inputs.now)) }
{
    folded_columns::<FirstValue>(alloc, inputs)
}

/// Place by place whether all are true, by Kleene logic: false where one is false, else null where one is
/// null. At least one buffer, all Boolean. Otherwise as `coalesce_buffers`. As Polars' `all_horizontal`.
pub fn all_horizontal_buffers(alloc: Global, inputs: &[&Buffer]) -> Result<Buffer, PlanError>
    requires some { 0 < length inputs.now }
    requires boolean { HaveType Boolean (values_of_buffers inputs.now) }
    ensures { GivesOr PlanError.ShapeMismatch values_of result
        (all_horizontal_rows (values_of_buffers inputs.now)) }
{
    folded::<AllTrue>(alloc, inputs)
}

/// The same of columns, under the name of the first.
pub fn all_horizontal(alloc: Global, inputs: &[Column]) -> Result<Column, PlanError>
    requires some { 0 < length inputs.now }
    requires boolean { HaveType Boolean (values_of_columns inputs.now) }
    ensures name { IfOk result (λ c. c.name ≡ first_name inputs.now) }
    ensures rows { GivesOr PlanError.ShapeMismatch (λ c. c.values) result
        (all_horizontal_rows (values_of_columns inputs.now)) }
{
    folded_columns::<AllTrue>(alloc, inputs)
}

/// Place by place whether one is true, by Kleene logic: true where one is true, else null where one is null.
/// At least one buffer, all Boolean. Otherwise as `coalesce_buffers`. As Polars' `any_horizontal`.
pub fn any_horizontal_buffers(alloc: Global, inputs: &[&Buffer]) -> Result<Buffer, PlanError>
    requires some { 0 < length inputs.now }
    requires boolean { HaveType Boolean (values_of_buffers inputs.now) }
    ensures { GivesOr PlanError.ShapeMismatch values_of result
        (any_horizontal_rows (values_of_buffers inputs.now)) }
{
    folded::<AnyTrue>(alloc, inputs)
}

/// The same of columns, under the name of the first.
pub fn any_horizontal(alloc: Global, inputs: &[Column]) -> Result<Column, PlanError>
    requires some { 0 < length inputs.now }
    requires boolean { HaveType Boolean (values_of_columns inputs.now) }
    ensures name { IfOk result (λ c. c.name ≡ first_name inputs.now) }
    ensures rows { GivesOr PlanError.ShapeMismatch (λ c. c.values) result
        (any_horizontal_rows (values_of_columns inputs.now)) }
{
    folded_columns::<AnyTrue>(alloc, inputs)
}

/// Place by place the least value, null where all are: at least one buffer, all of one type. False is below
/// true, and strings are in the order of their bytes. Otherwise as `coalesce_buffers`. As Polars'
/// `min_horizontal`, but that all types are one.
pub fn min_horizontal_buffers(alloc: Global, inputs: &[&Buffer]) -> Result<Buffer, PlanError>
    requires some { 0 < length inputs.now }
    requires same { HaveType (first_type (values_of_buffers inputs.now)) (values_of_buffers inputs.now) }
    ensures { GivesOr PlanError.ShapeMismatch values_of result
        (min_horizontal_rows (first_type (values_of_buffers inputs.now)) (values_of_buffers inputs.now)) }
{
    folded::<LeastValue>(alloc, inputs)
}

/// The same of columns, under the name of the first.
pub fn min_horizontal(alloc: Global, inputs: &[Column]) -> Result<Column, PlanError>
    requires some { 0 < length inputs.now }
    requires same { HaveType (first_type (values_of_columns inputs.now)) (values_of_columns inputs.now) }
    ensures name { IfOk result (λ c. c.name ≡ first_name inputs.now) }
    ensures rows { GivesOr PlanError.ShapeMismatch (λ c. c.values) result
        (min_horizontal_rows (first_type (values_of_columns inputs.now)) (values_of_columns inputs.now)) }
{
    folded_columns::<LeastValue>(alloc, inputs)
}

/// Place by place the greatest value, null where all are. Otherwise as `min_horizontal_buffers`. As Polars'
/// `max_horizontal`, but that all types are one.
pub fn max_horizontal_buffers(alloc: Global, inputs: &[&Buffer]) -> Result<Buffer, PlanError>
    requires some { 0 < length inputs.now }
    requires same { HaveType (first_type (values_of_buffers inputs.now)) (values_of_buffers inputs.now) }
    ensures { GivesOr PlanError.ShapeMismatch values_of result
        (max_horizontal_rows (first_type (values_of_buffers inputs.now)) (values_of_buffers inputs.now)) }
{
    folded::<GreatestValue>(alloc, inputs)
}

/// The same of columns, under the name of the first.
pub fn max_horizontal(alloc: Global, inputs: &[Column]) -> Result<Column, PlanError>
    requires some { 0 < length inputs.now }
    requires same { HaveType (first_type (values_of_columns inputs.now)) (values_of_columns inputs.now) }
    ensures name { IfOk result (λ c. c.name ≡ first_name inputs.now) }
    ensures rows { GivesOr PlanError.ShapeMismatch (λ c. c.values) result
        (max_horizontal_rows (first_type (values_of_columns inputs.now)) (values_of_columns inputs.now)) }
{
    folded_columns::<GreatestValue>(alloc, inputs)
}
