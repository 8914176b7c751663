//! The least and the greatest value of a column, and their first places.
ghost use Rattle.std.specs.Prelude.{◌≡◌};
ghost use Rattle.px_base.specs.Answer.{GivesOrMemory, GivesSeen};
ghost use Rattle.px_column.specs.Buffers.{values_of};
ghost use Rattle.px_semantics.specs.Aggregates.{one_row};
ghost use Rattle.px_semantics.specs.Extremes.{min_of, max_of, arg_min_of, arg_max_of, position_row};
ghost use Rattle.px_types.specs.declared.value_type.ValueType.TheVariants as value_type;

use crate::arms::integers;
use crate::booleans::{greatest_boolean, least_boolean};
use crate::integers::{greatest_integer, least_integer};
use crate::places::{greatest_place, least_place};
use crate::strings::{greatest_string, least_string};
use px_aggregates::{one_boolean, one_integer, one_string};
use px_column::{Buffer, Column};
use px_types::PlanError;
use std::alloc::Global;

/// The least value of a buffer, in one row of its type: null where there is no value. False is below true, strings
/// are in the order of their bytes. The only error is out of memory. As Polars' `min`.
pub fn min_buffer(alloc: Global, a: &Buffer) -> Result<Buffer, PlanError>
    ensures { GivesSeen values_of result (min_of (values_of a.now)) }
{
    integers!(a {
        Buffer::Null(_) => Ok(Buffer::Null(1)),
        Buffer::Boolean(rows) => one_boolean(alloc, least_boolean(rows)),
        Buffer::String(rows) => one_string(alloc, least_string(rows)),
    } => Buffer one_integer(alloc, least_integer(a)))
}

/// The same of a column, under its name.
pub fn min(alloc: Global, a: &Column) -> Result<Column, PlanError>
    ensures { GivesOrMemory result (record { name = a.now.name; values = min_of a.now.values }) }
{
    let buffer = min_buffer(alloc, a.buffer())?;
    let name = a.name().try_clone(alloc)?;
    Ok(Column::new(name, buffer))
}

/// The greatest value of a buffer, in one row of its type: null where there is no value. False is below true,
/// strings are in the order of their bytes. The only error is out of memory. As Polars' `max`.
pub fn max_buffer(alloc: Global, a: &Buffer) -> Result<Buffer, PlanError>
    ensures { GivesSeen values_of result (max_of (values_of a.now)) }
{
    integers!(a {
        Buffer::Null(_) => Ok(Buffer::Null(1)),
        Buffer::Boolean(rows) => one_boolean(alloc, greatest_boolean(rows)),
        Buffer::String(rows) => one_string(alloc, greatest_string(rows)),
    } => Buffer one_integer(alloc, greatest_integer(a)))
}

/// The same of a column, under its name.
pub fn max(alloc: Global, a: &Column) -> Result<Column, PlanError>
    ensures { GivesOrMemory result (record { name = a.now.name; values = max_of a.now.values }) }
{
    let buffer = max_buffer(alloc, a.buffer())?;
    let name = a.name().try_clone(alloc)?;
    Ok(Column::new(name, buffer))
}

/// One row of a place, null where there is none. The only error is out of memory.
fn one_place(alloc: Global, place: Option<u32>) -> Result<Buffer, PlanError>
    ensures { GivesSeen values_of result (one_row value_type.UInt32 (position_row place)) }
{
    let rows = one_integer(alloc, place)?;
    Ok(Buffer::UInt32(rows))
}

/// The first place of the least value of a buffer, in one row of the type `UInt32`: null where there is no value.
/// The only error is out of memory. As Polars' `arg_min`.
pub fn arg_min_buffer(alloc: Global, a: &Buffer) -> Result<Buffer, PlanError>
    ensures { GivesSeen values_of result (arg_min_of (values_of a.now)) }
{
    one_place(alloc, least_place(a))
}

/// The same of a column, under its name.
pub fn arg_min(alloc: Global, a: &Column) -> Result<Column, PlanError>
    ensures { GivesOrMemory result (record { name = a.now.name; values = arg_min_of a.now.values }) }
{
    let buffer = arg_min_buffer(alloc, a.buffer())?;
    let name = a.name().try_clone(alloc)?;
    Ok(Column::new(name, buffer))
}

/// The first place of the greatest value of a buffer, in one row of the type `UInt32`: null where there is no
/// value. The only error is out of memory. As Polars' `arg_max`.
pub fn arg_max_buffer(alloc: Global, a: &Buffer) -> Result<Buffer, PlanError>
    ensures { GivesSeen values_of result (arg_max_of (values_of a.now)) }
{
    one_place(alloc, greatest_place(a))
}

/// The same of a column, under its name.
pub fn arg_max(alloc: Global, a: &Column) -> Result<Column, PlanError>
    ensures { GivesOrMemory result (record { name = a.now.name; values = arg_max_of a.now.values }) }
{
    let buffer = arg_max_buffer(alloc, a.buffer())?;
    let name = a.name().try_clone(alloc)?;
    Ok(Column::new(name, buffer))
}
