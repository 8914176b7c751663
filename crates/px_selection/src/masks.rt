//! Rows by a mask, and the rows that are not null.
ghost use Rattle.std.specs.Prelude.{◌≡◌, [], cond, length, map, get_or, replicate, None, IfOk, IfErr};
ghost use Rattle.std.specs.List.{items_where_true};
ghost use Rattle.px_base.specs.Answer.{GivesOrMemory, GivesOr};
ghost use Rattle.px_semantics.specs.Rows.{IsBoolean};
ghost use Rattle.px_column.specs.Buffers.{values_of};
ghost use Rattle.px_semantics.specs.Filters.{masked_rows, filter_rows, drop_null_rows};
ghost use Rattle.px_column.specs.ColumnOf.{type_of, rows_of};

use crate::positions::{set_positions, valid_positions};
use crate::take::take_rows;
use px_arrays::{Bitmap, BooleanArray};
use px_column::{Buffer, Column};
use px_types::PlanError;
use std::alloc::Global;

/// The rows at which the mask is set, which has as many bits.
fn rows_where_set(alloc: Global, a: &Buffer, mask: &Bitmap) -> Result<Buffer, PlanError>
    requires { length mask.now ≡ length (rows_of a.now) }
    ensures value_type { IfOk result (λ r. type_of r ≡ type_of a.now) }
    ensures rows { IfOk result (λ r. rows_of r ≡ items_where_true mask.now (rows_of a.now)) }
    ensures err { IfErr result (λ e. e ≡ PlanError.OutOfMemory) }
{
    let positions = set_positions(alloc, mask)?;
    take_rows(alloc, a, positions.as_slice())
}

/// All rows, or none.
fn all_or_none(alloc: Global, a: &Buffer, all: bool) -> Result<Buffer, PlanError>
    ensures value_type { IfOk result (λ r. type_of r ≡ type_of a.now) }
    ensures rows { IfOk result (λ r. rows_of r ≡ cond all (rows_of a.now) []) }
    ensures err { IfErr result (λ e. e ≡ PlanError.OutOfMemory) }
{
    if all {
        a.try_clone(alloc)
    } else {
        take_rows(alloc, a, &[])
    }
}

/// The one row for each bit that is set.
fn row_where_set(alloc: Global, a: &Buffer, mask: &Bitmap) -> Result<Buffer, PlanError>
    requires { length (rows_of a.now) ≡ 1 }
    ensures value_type { IfOk result (λ r. type_of r ≡ type_of a.now) }
    ensures rows { IfOk result (λ r. rows_of r
        ≡ items_where_true mask.now (replicate (length mask.now) (get_or (rows_of a.now) 0 None))) }
    ensures err { IfErr result (λ e. e ≡ PlanError.OutOfMemory) }
{
    let count = mask.len() - mask.zeros();
    a.repeated(alloc, count as u32)
}

/// The rows of a buffer at which the mask is true. One row goes with each row of the other.
fn rows_by_mask(alloc: Global, a: &Buffer, mask: &BooleanArray) -> Result<Buffer, PlanError>
    ensures value_type { IfOk result (λ r. type_of r ≡ type_of a.now) }
    ensures rows { GivesOr PlanError.ShapeMismatch (λ r. rows_of r) result (masked_rows mask.now (rows_of a.now)) }
{
    let m = a.len() as usize;
    let n = mask.len();
    let flags = mask.truth();
    if m == n {
        return rows_where_set(alloc, a, flags);
    }
    if n == 1 {
        return all_or_none(alloc, a, flags.get(0));
    }
    if m == 1 {
        return row_where_set(alloc, a, flags);
    }
    Err(PlanError::ShapeMismatch)
}

/// The rows of `a` at which the mask `by` is true, in order: a null keeps no row. A mask of one row goes
/// with each row of `a`, and `a` of one row with each row of the mask. `ShapeMismatch` where the lengths
/// do not broadcast.
pub fn filter_buffers(alloc: Global, a: &Buffer, by: &Buffer) -> Result<Buffer, PlanError>
    requires { IsBoolean (type_of by.now) }
    ensures rows { GivesOr PlanError.ShapeMismatch (λ c. values_of c) result
        (filter_rows (values_of a.now) (values_of by.now)) }
{
    match by {
        Buffer::Boolean(mask) => rows_by_mask(alloc, a, mask),
        _ => unreachable!(),
    }
}

/// The rows of `a` at which the mask `by` is true, in order, under the name of `a`, as Polars' `filter`: a
/// null keeps no row. A mask of one row goes with each row of `a`, and `a` of one row with each row of the
/// mask. `ShapeMismatch` where the lengths do not broadcast. Else the only error is out of memory.
pub fn filter(alloc: Global, a: &Column, by: &Column) -> Result<Column, PlanError>
    requires { IsBoolean by.now.values.value_type }
    ensures name { IfOk result (λ c. c.name ≡ a.now.name) }
    ensures rows { GivesOr PlanError.ShapeMismatch (λ c. c.values) result
        (filter_rows a.now.values by.now.values) }
{
    let buffer = filter_buffers(alloc, a.buffer(), by.buffer())?;
    let name = a.name().try_clone(alloc)?;
    Ok(Column::new(name, buffer))
}

/// The rows of a buffer that are not null, in order.
pub fn drop_nulls_buffer(alloc: Global, a: &Buffer) -> Result<Buffer, PlanError>
    ensures rows { IfOk result (λ c. values_of c ≡ drop_null_rows (values_of a.now)) }
    ensures err { IfErr result (λ e. e ≡ PlanError.OutOfMemory) }
{
    let positions = valid_positions(alloc, a)?;
    take_rows(alloc, a, positions.as_slice())
}

/// The rows of a column that are not null, in order, under its name, as Polars' `drop_nulls`. The only
/// error is out of memory.
pub fn drop_nulls(alloc: Global, a: &Column) -> Result<Column, PlanError>
    ensures { GivesOrMemory result (record { name = a.now.name; values = drop_null_rows a.now.values }) }
{
    let buffer = drop_nulls_buffer(alloc, a.buffer())?;
    let name = a.name().try_clone(alloc)?;
    Ok(Column::new(name, buffer))
}
