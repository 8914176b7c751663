//! Buffers of one row.
ghost use Rattle.std.specs.Prelude.{◌≡◌, ◌<◌, [], ◌∷◌, pos, length, get_or, Some, None, option_map};
ghost use Rattle.std.specs.Option.{option_copied};
ghost use Rattle.px_base.specs.Answer.{GivesOrMemory, GivesSeen};
ghost use Rattle.px_semantics.specs.Aggregates.{one_row};
ghost use Rattle.px_column.specs.Buffers.{values_of};
ghost use Rattle.px_semantics.specs.Rows.{boolean_row, integer_row, string_row, IntegerValue};
ghost use Rattle.px_column.specs.ColumnOf.{type_of, rows_of};
ghost use Rattle.px_types.specs.declared.value_type.ValueType.TheVariants as value_type;

use px_arrays::{BooleanArray, IntegerArray, IntegerArrayBuilder, StringArrayBuilder};
use px_column::Buffer;
use px_integers::Integer;
use px_types::{PlanError, ValueType};
use std::alloc::Global;

/// One row of a Boolean, null where there is none. The only error is out of memory.
pub fn one_boolean(alloc: Global, row: Option<bool>) -> Result<Buffer, PlanError>
    ensures { GivesSeen values_of result (one_row value_type.Boolean (boolean_row row)) }
{
    let rows = BooleanArray::from_options(alloc, &[row])?;
    Ok(Buffer::Boolean(rows))
}

/// One row of an integer, null where there is none. The only error is out of memory.
pub fn one_integer<T: Integer>(alloc: Global, row: Option<T>) -> Result<IntegerArray<T>, PlanError>
    ensures { GivesOrMemory result (integer_row (option_map T.integer row) ∷ []) }
{
    let mut rows = IntegerArrayBuilder::with_capacity(alloc, 1)?;
    rows.push(row)?;
    rows.finish()
}

/// One row of a number of rows. The only error is out of memory.
pub fn one_count(alloc: Global, count: u32) -> Result<Buffer, PlanError>
    ensures { GivesSeen values_of result (one_row value_type.UInt32 (Some (IntegerValue (pos count)))) }
{
    let rows = one_integer(alloc, Some(count))?;
    Ok(Buffer::UInt32(rows))
}

/// One row of a string, null where there is none. The only error is out of memory.
pub fn one_string(alloc: Global, row: Option<&str>) -> Result<Buffer, PlanError>
    ensures { GivesSeen values_of result (one_row value_type.String (string_row (option_copied row.entry))) }
{
    let mut rows = StringArrayBuilder::with_capacity(alloc, 1)?;
    rows.push(row)?;
    let rows = rows.finish()?;
    Ok(Buffer::String(rows))
}

/// One null of a type. The only error is out of memory.
pub fn one_null(alloc: Global, of_type: ValueType) -> Result<Buffer, PlanError>
    ensures { GivesSeen values_of result (one_row of_type None) }
{
    match of_type {
        ValueType::Null => Ok(Buffer::Null(1)),
        ValueType::Boolean => one_boolean(alloc, None),
        ValueType::String => one_string(alloc, None),
        ValueType::Int8 => Ok(Buffer::Int8(one_integer(alloc, None)?)),
        ValueType::Int16 => Ok(Buffer::Int16(one_integer(alloc, None)?)),
        ValueType::Int32 => Ok(Buffer::Int32(one_integer(alloc, None)?)),
        ValueType::Int64 => Ok(Buffer::Int64(one_integer(alloc, None)?)),
        ValueType::UInt8 => Ok(Buffer::UInt8(one_integer(alloc, None)?)),
        ValueType::UInt16 => Ok(Buffer::UInt16(one_integer(alloc, None)?)),
        ValueType::UInt32 => Ok(Buffer::UInt32(one_integer(alloc, None)?)),
        ValueType::UInt64 => Ok(Buffer::UInt64(one_integer(alloc, None)?)),
    }
}

/// Row `i` of a buffer, which is below its length. The only error is out of memory.
pub fn one_of(alloc: Global, a: &Buffer, i: usize) -> Result<Buffer, PlanError>
    requires { i < length (rows_of a.now) }
    ensures { GivesSeen values_of result (one_row (type_of a.now) (get_or (rows_of a.now) i None)) }
{
    match a {
        Buffer::Null(_) => Ok(Buffer::Null(1)),
        Buffer::Boolean(rows) => one_boolean(alloc, rows.get(i)),
        Buffer::String(rows) => one_string(alloc, rows.get(i)),
        Buffer::Int8(rows) => Ok(Buffer::Int8(one_integer(alloc, rows.get(i))?)),
        Buffer::Int16(rows) => Ok(Buffer::Int16(one_integer(alloc, rows.get(i))?)),
        Buffer::Int32(rows) => Ok(Buffer::Int32(one_integer(alloc, rows.get(i))?)),
        Buffer::Int64(rows) => Ok(Buffer::Int64(one_integer(alloc, rows.get(i))?)),
        Buffer::UInt8(rows) => Ok(Buffer::UInt8(one_integer(alloc, rows.get(i))?)),
        Buffer::UInt16(rows) => Ok(Buffer::UInt16(one_integer(alloc, rows.get(i))?)),
        Buffer::UInt32(rows) => Ok(Buffer::UInt32(one_integer(alloc, rows.get(i))?)),
        Buffer::UInt64(rows) => Ok(Buffer::UInt64(one_integer(alloc, rows.get(i))?)),
    }
}
