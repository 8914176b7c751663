//! The first row and the last.
ghost use Rattle.std.specs.Prelude.{◌≡◌};
ghost use Rattle.px_base.specs.Answer.{GivesOrMemory, GivesSeen};
ghost use Rattle.px_semantics.specs.Aggregates.{first_of, last_of};
ghost use Rattle.px_column.specs.Buffers.{values_of};

use crate::one_row::{one_null, one_of};
use px_column::{Buffer, Column};
use px_types::PlanError;
use std::alloc::Global;

/// The first row of a buffer, in one row of its type: null where there are no rows. The only error is out of
/// memory. As Polars' `first`.
pub fn first_buffer(alloc: Global, a: &Buffer) -> Result<Buffer, PlanError>
    ensures { GivesSeen values_of result (first_of (values_of a.now)) }
{
    let len = a.len() as usize;
    if len == 0 {
        return one_null(alloc, a.value_type());
    }
    one_of(alloc, a, 0)
}

/// The same of a column, under its name.
pub fn first(alloc: Global, a: &Column) -> Result<Column, PlanError>
    ensures { GivesOrMemory result (record { name = a.now.name; values = first_of a.now.values }) }
{
    let buffer = first_buffer(alloc, a.buffer())?;
    let name = a.name().try_clone(alloc)?;
    Ok(Column::new(name, buffer))
}

/// The last row of a buffer, in one row of its type: null where there are no rows. The only error is out of
/// memory. As Polars' `last`.
pub fn last_buffer(alloc: Global, a: &Buffer) -> Result<Buffer, PlanError>
    ensures { GivesSeen values_of result (last_of (values_of a.now)) }
{
    let len = a.len() as usize;
    if len == 0 {
        return one_null(alloc, a.value_type());
    }
    one_of(alloc, a, len - 1)
}

/// The same of a column, under its name.
pub fn last(alloc: Global, a: &Column) -> Result<Column, PlanError>
    ensures { GivesOrMemory result (record { name = a.now.name; values = last_of a.now.values }) }
{
    let buffer = last_buffer(alloc, a.buffer())?;
    let name = a.name().try_clone(alloc)?;
    Ok(Column::new(name, buffer))
}
