//! Rows in reverse.
ghost use Rattle.std.specs.Prelude.{◌≡◌, reverse, IfOk, IfErr};
ghost use Rattle.px_base.specs.Answer.{GivesOrMemory};
ghost use Rattle.px_column.specs.Buffers.{values_of};
ghost use Rattle.px_semantics.specs.Slices.{reverse_rows};

use crate::positions::reversed_positions;
use crate::take::take_rows;
use px_column::{Buffer, Column};
use px_types::PlanError;
use std::alloc::Global;

/// The rows of a buffer from the last to the first.
pub fn reverse_buffer(alloc: Global, a: &Buffer) -> Result<Buffer, PlanError>
    ensures rows { IfOk result (λ c. values_of c ≡ reverse_rows (values_of a.now)) }
    ensures err { IfErr result (λ e. e ≡ PlanError.OutOfMemory) }
{
    let positions = reversed_positions(alloc, a.len())?;
    take_rows(alloc, a, positions.as_slice())
}

/// The rows of a column from the last to the first, under its name, as Polars' `reverse`. The only error
/// is out of memory.
pub fn reverse(alloc: Global, a: &Column) -> Result<Column, PlanError>
    ensures { GivesOrMemory result (record { name = a.now.name; values = reverse_rows a.now.values }) }
{
    let buffer = reverse_buffer(alloc, a.buffer())?;
    let name = a.name().try_clone(alloc)?;
    Ok(Column::new(name, buffer))
}
