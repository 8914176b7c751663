//! Whether a row of Booleans is true, and whether all are.
ghost use Rattle.std.specs.Prelude.{◌≡◌, ◌&&◌, is_none, not};
ghost use Rattle.std.specs.List.{count_by, list_any};
ghost use Rattle.px_base.specs.Answer.{GivesOrMemory, GivesSeen};
ghost use Rattle.px_semantics.specs.Aggregates.{any_row, all_row, any_of, all_of};
ghost use Rattle.px_column.specs.Buffers.{values_of};
ghost use Rattle.px_column.specs.ColumnOf.{type_of};
ghost use Rattle.px_semantics.specs.Logic.{is_true, is_false};
ghost use Rattle.px_semantics.specs.Rows.{boolean_row, IsBoolean};

use crate::one_row::one_boolean;
use px_arrays::BooleanArray;
use px_column::{Buffer, Column};
use px_types::PlanError;
use std::alloc::Global;

/// The number of rows that are true.
pub fn true_count(rows: &BooleanArray) -> u32
    ensures { result ≡ count_by is_true rows.now }
{
    let truth = rows.truth();
    (truth.len() - truth.zeros()) as u32
}

/// The number of rows that are false: those that are not true, without the nulls.
fn false_count(rows: &BooleanArray) -> u32
    ensures { result ≡ count_by is_false rows.now }
{
    prove!(rows.len() == rows.truth().len());
    (rows.truth().zeros() - rows.valid().zeros()) as u32
}

/// Whether a row is true.
pub fn has_true(rows: &BooleanArray) -> bool
    ensures { result ≡ list_any is_true rows.now }
{
    true_count(rows) > 0
}

/// Whether a row is false.
pub fn has_false(rows: &BooleanArray) -> bool
    ensures { result ≡ list_any is_false rows.now }
{
    false_count(rows) > 0
}

/// Whether a row is null.
fn has_null(rows: &BooleanArray) -> bool
    ensures { result ≡ list_any is_none rows.now }
{
    rows.valid().zeros() > 0
}

/// Whether a row is null, and nulls are not ignored.
fn is_unknown(rows: &BooleanArray, ignore_nulls: bool) -> bool
    ensures { result ≡ not ignore_nulls && list_any is_none rows.now }
{
    if ignore_nulls {
        return false;
    }
    has_null(rows)
}

/// True where a row is true. Else None where a row is null, unless nulls are ignored. Else false.
fn any_value(rows: &BooleanArray, ignore_nulls: bool) -> Option<bool>
    ensures { boolean_row result ≡ any_row ignore_nulls rows.now }
{
    if has_true(rows) {
        return Some(true);
    }
    if is_unknown(rows, ignore_nulls) {
        return None;
    }
    Some(false)
}

/// False where a row is false. Else None where a row is null, unless nulls are ignored. Else true.
fn all_value(rows: &BooleanArray, ignore_nulls: bool) -> Option<bool>
    ensures { boolean_row result ≡ all_row ignore_nulls rows.now }
{
    if has_false(rows) {
        return Some(false);
    }
    if is_unknown(rows, ignore_nulls) {
        return None;
    }
    Some(true)
}

/// Whether a row of a Boolean buffer is true, in one row: true where one is. Else null where a row is null,
/// unless nulls are ignored. Else false. The only error is out of memory. With nulls not ignored this is Kleene's
/// disjunction of all rows, as Polars' `any`.
pub fn any_buffer(alloc: Global, a: &Buffer, ignore_nulls: bool) -> Result<Buffer, PlanError>
    requires { IsBoolean (type_of a.now) }
    ensures { GivesSeen values_of result (any_of ignore_nulls (values_of a.now)) }
{
    match a {
        Buffer::Boolean(rows) => one_boolean(alloc, any_value(rows, ignore_nulls)),
        _ => unreachable!(),
    }
}

/// The same of a column, under its name.
pub fn any(alloc: Global, a: &Column, ignore_nulls: bool) -> Result<Column, PlanError>
    requires { IsBoolean a.now.values.value_type }
    ensures { GivesOrMemory result (record { name = a.now.name; values = any_of ignore_nulls a.now.values }) }
{
    let buffer = any_buffer(alloc, a.buffer(), ignore_nulls)?;
    let name = a.name().try_clone(alloc)?;
    Ok(Column::new(name, buffer))
}

/// Whether all rows of a Boolean buffer are true, in one row: false where one is false. Else null where a row is
/// null, unless nulls are ignored. Else true. The only error is out of memory. With nulls not ignored this is
/// Kleene's conjunction of all rows, as Polars' `all`.
pub fn all_buffer(alloc: Global, a: &Buffer, ignore_nulls: bool) -> Result<Buffer, PlanError>
    requires { IsBoolean (type_of a.now) }
    ensures { GivesSeen values_of result (all_of ignore_nulls (values_of a.now)) }
{
    match a {
        Buffer::Boolean(rows) => one_boolean(alloc, all_value(rows, ignore_nulls)),
        _ => unreachable!(),
    }
}

/// The same of a column, under its name.
pub fn all(alloc: Global, a: &Column, ignore_nulls: bool) -> Result<Column, PlanError>
    requires { IsBoolean a.now.values.value_type }
    ensures { GivesOrMemory result (record { name = a.now.name; values = all_of ignore_nulls a.now.values }) }
{
    let buffer = all_buffer(alloc, a.buffer(), ignore_nulls)?;
    let name = a.name().try_clone(alloc)?;
    Ok(Column::new(name, buffer))
}
