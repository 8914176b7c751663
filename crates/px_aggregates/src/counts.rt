//! The number of rows, of nulls and of values.
ghost use Rattle.std.specs.Prelude.{◌≡◌};
ghost use Rattle.px_base.specs.Answer.{GivesOrMemory, GivesSeen};
ghost use Rattle.px_semantics.specs.Aggregates.{count_of, null_count_of, row_count_of};
ghost use Rattle.px_column.specs.Buffers.{values_of};
ghost use Rattle.px_column.specs.ColumnOf.{rows_of};

use crate::one_row::one_count;
use px_column::{Buffer, Column};
use px_types::PlanError;
use std::alloc::Global;

/// The number of nulls of a buffer, in one row of the type `UInt32`. The only error is out of memory.
pub fn null_count_buffer(alloc: Global, a: &Buffer) -> Result<Buffer, PlanError>
    ensures { GivesSeen values_of result (null_count_of (values_of a.now)) }
{
    one_count(alloc, a.null_count())
}

/// The same of a column, under its name.
pub fn null_count_column(alloc: Global, a: &Column) -> Result<Column, PlanError>
    ensures { GivesOrMemory result (record { name = a.now.name; values = null_count_of a.now.values }) }
{
    let buffer = null_count_buffer(alloc, a.buffer())?;
    let name = a.name().try_clone(alloc)?;
    Ok(Column::new(name, buffer))
}

/// The number of rows, with the nulls or without them.
fn row_count(a: &Buffer, include_nulls: bool) -> u32
    ensures { result ≡ count_of include_nulls (rows_of a.now) }
{
    if include_nulls {
        return a.len();
    }
    a.len() - a.null_count()
}

/// The number of rows of a buffer, with the nulls or without them, in one row of the type `UInt32`. The only error
/// is out of memory.
pub fn count_buffer(alloc: Global, a: &Buffer, include_nulls: bool) -> Result<Buffer, PlanError>
    ensures { GivesSeen values_of result (row_count_of include_nulls (values_of a.now)) }
{
    one_count(alloc, row_count(a, include_nulls))
}

/// The same of a column, under its name.
pub fn count(alloc: Global, a: &Column, include_nulls: bool) -> Result<Column, PlanError>
    ensures { GivesOrMemory result (record { name = a.now.name; values = row_count_of include_nulls a.now.values }) }
{
    let buffer = count_buffer(alloc, a.buffer(), include_nulls)?;
    let name = a.name().try_clone(alloc)?;
    Ok(Column::new(name, buffer))
}
