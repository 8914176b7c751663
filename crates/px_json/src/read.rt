//! Columns, read from values.
ghost use Rattle.std.specs.Prelude.{◌≡◌, ◌<◌, ◌^◌, length, option_map, replicate, None};
ghost use Rattle.serde_json.specs.View.{view, items_view};
ghost use Rattle.px_base.specs.Answer.{GivesOrMemory, GivesSeen};
ghost use Rattle.px_types.specs.declared.value_type.ValueType.TheVariants as value_type;
ghost use Rattle.px_column.specs.ColumnOf.{type_of, rows_of};
ghost use Rattle.px_json.specs.JsonAccess.{every};
ghost use Rattle.px_json.specs.Column as column;
ghost use Rattle.px_json.specs.Column.{cell, integer_in, boolean_in, string_in, value_in};

use crate::{access, value_type};
use px_arrays::{
    Bitmap, BooleanArray, IntegerArray, IntegerArrayBuilder, StringArray, StringArrayBuilder,
};
use px_column::{Buffer, Column, ColumnList};
use px_integers::Integer;
use px_types::{List, PlanError, SmallStr, ValueType};
use serde_json::Value;
use std::alloc::Global;

/// 2^32, from which on a column would have too many rows.
const TOO_LONG: usize = 4294967296;

/// The column that the value stands for: an object with exactly the keys `name`, `dtype` and
/// `values`, in any order. The type is one of the eleven, by its name. Each value is null or one of
/// the type: true or false, a string, or an integer inside the type, and none for `Null`. A number
/// that `serde_json` keeps as a float is no integer, so `1.0`, `-0` and 2^64 are none. There are
/// fewer than 2^32 values. None for every other value. The form is our own. The only error is out
/// of memory.
pub fn column_of_value(alloc: Global, value: &Value) -> Result<Option<Column>, PlanError>
    ensures column { GivesOrMemory result (column.column_in (view value.now)) }
{
    let Some((value_type, name, items)) = column_parts(value) else {
        return Ok(None);
    };
    let Some(buffer) = buffer_of(alloc, value_type, items)? else {
        return Ok(None);
    };
    let name = SmallStr::new(alloc, name)?;
    Ok(Some(Column::new(name, buffer)))
}

/// Each value's column, or None where one of them stands for none. The only error is out of memory.
pub fn columns_of_values(alloc: Global, values: &[Value]) -> Result<Option<ColumnList>, PlanError>
    ensures columns { GivesSeen (option_map (λ l. l.entries)) result
        (every column.column_in (items_view values.now)) }
{
    let mut columns = List::new(alloc);
    for value in values {
        let Some(column) = column_of_value(alloc, value)? else {
            return Ok(None);
        };
        columns.try_push(column)?;
    }
    Ok(Some(columns))
}

/// The type, the name and the values of a column.
fn column_parts(value: &Value) -> Option<(ValueType, &str, &[Value])>
    ensures { option_map (λ p. (p.0, p.1.now, items_view p.2.now)) result
        ≡ column.column_parts (view value.now) }
{
    let (dtype, name, values) = access::three_fields(value, "dtype", "name", "values")?;
    let value_type = value_type::value_type_named(dtype.as_str()?)?;
    Some((value_type, name.as_str()?, access::items_of(values)?))
}

/// The rows of a list of nulls and values of the type, and None where it holds anything else or has
/// 2^32 values or more.
fn buffer_of(
    alloc: Global,
    value_type: ValueType,
    items: &[Value],
) -> Result<Option<Buffer>, PlanError>
    ensures { GivesSeen (option_map (λ b. record { value_type = type_of b; rows = rows_of b })) result
        (column.values_in value_type (items_view items.now)) }
{
    if items.len() >= TOO_LONG {
        return Ok(None);
    }
    rows_of_kind(alloc, value_type, items)
}

/// The rows of a list of nulls and values of the type, and None where it holds anything else.
fn rows_of_kind(
    alloc: Global,
    value_type: ValueType,
    items: &[Value],
) -> Result<Option<Buffer>, PlanError>
    requires { length items.now < 2 ^ 32 }
    ensures { GivesSeen (option_map (λ b. record { value_type = type_of b; rows = rows_of b })) result
        (column.rows_in value_type (items_view items.now)) }
{
    macro_rules! numbers {
        ($variant:ident) => {
            Ok(numbers_of(alloc, items)?.map(Buffer::$variant))
        };
    }
    match value_type {
        ValueType::Null => Ok(nulls_of(items).map(Buffer::Null)),
        ValueType::Boolean => Ok(booleans_of(alloc, items)?.map(Buffer::Boolean)),
        ValueType::String => Ok(strings_of(alloc, items)?.map(Buffer::String)),
        ValueType::UInt8 => numbers!(UInt8),
        ValueType::UInt16 => numbers!(UInt16),
        ValueType::UInt32 => numbers!(UInt32),
        ValueType::UInt64 => numbers!(UInt64),
        ValueType::Int8 => numbers!(Int8),
        ValueType::Int16 => numbers!(Int16),
        ValueType::Int32 => numbers!(Int32),
        ValueType::Int64 => numbers!(Int64),
    }
}

/// How many nulls the list holds, and None where it holds anything else.
fn nulls_of(items: &[Value]) -> Option<u32>
    requires { length items.now < 2 ^ 32 }
    ensures { option_map (λ n. replicate n None) result
        ≡ every (cell (value_in value_type.Null)) (items_view items.now) }
{
    for item in items {
        if !item.is_null() {
            return None;
        }
    }
    Some(items.len() as u32)
}

/// The rows of a list of nulls and Booleans, and None where it holds anything else.
fn booleans_of(alloc: Global, items: &[Value]) -> Result<Option<BooleanArray>, PlanError>
    requires { length items.now < 2 ^ 32 }
    ensures { GivesOrMemory result (every (cell boolean_in) (items_view items.now)) }
{
    let mut flags = Vec::with_capacity(alloc, items.len())?;
    let mut valid = Vec::with_capacity(alloc, items.len())?;
    for item in items {
        let Some(row) = access::boolean_cell(item) else {
            return Ok(None);
        };
        flags.push(row.unwrap_or(false))?;
        valid.push(row.is_some())?;
    }
    let valid = Bitmap::from_bools(alloc, valid.as_slice())?;
    Ok(Some(BooleanArray::from_flags(alloc, flags.as_slice(), valid)?))
}

/// The rows of a list of nulls and texts, and None where it holds anything else.
fn strings_of(alloc: Global, items: &[Value]) -> Result<Option<StringArray>, PlanError>
    requires { length items.now < 2 ^ 32 }
    ensures { GivesOrMemory result (every (cell string_in) (items_view items.now)) }
{
    let mut rows = StringArrayBuilder::with_capacity(alloc, items.len())?;
    for item in items {
        let Some(row) = access::string_cell(item) else {
            return Ok(None);
        };
        rows.push(row)?;
    }
    Ok(Some(rows.finish()?))
}

/// The rows of a list of nulls and integers of the type, and None where it holds anything else.
fn numbers_of<T: Integer>(
    alloc: Global,
    items: &[Value],
) -> Result<Option<IntegerArray<T>>, PlanError>
    requires { length items.now < 2 ^ 32 }
    ensures { GivesOrMemory result (every (cell (integer_in T.value_type)) (items_view items.now)) }
{
    let mut rows = IntegerArrayBuilder::with_capacity(alloc, items.len())?;
    for item in items {
        let Some(row) = access::number_cell(item) else {
            return Ok(None);
        };
        rows.push(row)?;
    }
    Ok(Some(rows.finish()?))
}
