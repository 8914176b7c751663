//! Columns, written as values.
ghost use Rattle.std.specs.Prelude.{◌≡◌, map, option_map, replicate, Some, None, false, IfOk};
ghost use Rattle.std.specs.Option.{option_copied};
ghost use Rattle.serde_json.specs.Data.{number};
ghost use Rattle.serde_json.specs.Find.{of_integer};
ghost use Rattle.serde_json.specs.View.{view, items_view};
ghost use Rattle.serde_json.specs.Written.{has_float, items_have_float};
ghost use Rattle.px_semantics.specs.Rows.{boolean_row, integer_row, string_row};
ghost use Rattle.px_column.specs.ColumnOf.{rows_of};
ghost use Rattle.px_base.specs.Answer.{GivesSeen};
ghost use Rattle.px_json.specs.Column.{column_in, column_data, named_data, row_data};

use crate::{build, value_type};
use px_arrays::{BooleanArray, IntegerArray, StringArray};
use px_column::{Buffer, Column};
use px_integers::Integer;
use px_types::{PlanError, ValueType};
use serde_json::{Value, json};
use std::alloc::Global;

/// The column as an object with the keys `dtype`, `name` and `values`. The only error is out of
/// memory.
pub fn value_of_column(alloc: Global, column: &Column) -> Result<Value, PlanError>
    ensures value { GivesSeen view result (column_data column.now) }

    // It has no float, so its compact text is known.
    ensures plain { IfOk result (λ v. has_float (view v) ≡ false) }

    // What is written reads as the same column.
    ensures again { IfOk result (λ v. column_in (view v) ≡ Some column.now) }
{
    // Its clauses say that the rows are those of a column.
    let _len = column.len();
    column_value(alloc, column)
}

/// Each column's value. The only error is out of memory.
pub fn values_of_columns(alloc: Global, columns: &[Column]) -> Result<Vec<Value>, PlanError>
    ensures values { GivesSeen (λ v. map view v.items) result (map column_data columns.now) }
    ensures plain { IfOk result (λ v. items_have_float (items_view v.items) ≡ false) }
{
    column_values(alloc, columns)
}

fn column_values(alloc: Global, columns: &[Column]) -> Result<Vec<Value>, PlanError>
    ensures { GivesSeen (λ v. map view v.items) result (map column_data columns.now) }
{
    let mut values = Vec::with_capacity(alloc, columns.len())?;
    for column in columns {
        values.push(column_value(alloc, column)?)?;
    }
    Ok(values)
}

fn column_value(alloc: Global, column: &Column) -> Result<Value, PlanError>
    ensures { GivesSeen view result (column_data column.now) }
{
    let values = row_values(alloc, column.buffer())?;
    named(alloc, column.value_type(), column.name().as_str(), values)
}

fn named(
    alloc: Global,
    value_type: ValueType,
    name: &str,
    values: Vec<Value>,
) -> Result<Value, PlanError>
    ensures { GivesSeen view result (named_data value_type name.now (map view values.items)) }
{
    let value_type = value_type::value_type_name(value_type);
    Ok(json!(in alloc; {"dtype": value_type, "name": name, "values": values})?)
}

/// Each row's value.
fn row_values(alloc: Global, buffer: &Buffer) -> Result<Vec<Value>, PlanError>
    ensures { GivesSeen (λ v. map view v.items) result (map row_data (rows_of buffer.now)) }
{
    match buffer {
        Buffer::Null(len) => null_values(alloc, *len),
        Buffer::Boolean(rows) => boolean_values(alloc, rows),
        Buffer::String(rows) => string_values(alloc, rows),
        Buffer::Int8(rows) => number_values(alloc, rows),
        Buffer::Int16(rows) => number_values(alloc, rows),
        Buffer::Int32(rows) => number_values(alloc, rows),
        Buffer::Int64(rows) => number_values(alloc, rows),
        Buffer::UInt8(rows) => number_values(alloc, rows),
        Buffer::UInt16(rows) => number_values(alloc, rows),
        Buffer::UInt32(rows) => number_values(alloc, rows),
        Buffer::UInt64(rows) => number_values(alloc, rows),
    }
}

fn null_values(alloc: Global, len: u32) -> Result<Vec<Value>, PlanError>
    ensures { GivesSeen (λ v. map view v.items) result (map row_data (replicate len None)) }
{
    let mut values = Vec::with_capacity(alloc, len as usize)?;
    for _ in 0..len {
        values.push(Value::Null)?;
    }
    Ok(values)
}

fn boolean_values(alloc: Global, rows: &BooleanArray) -> Result<Vec<Value>, PlanError>
    ensures { GivesSeen (λ v. map view v.items) result (map row_data rows.now) }
{
    let mut values = Vec::with_capacity(alloc, rows.len())?;
    for i in 0..rows.len() {
        values.push(boolean_value(rows.get(i)))?;
    }
    Ok(values)
}

fn string_values(alloc: Global, rows: &StringArray) -> Result<Vec<Value>, PlanError>
    ensures { GivesSeen (λ v. map view v.items) result (map row_data rows.now) }
{
    let mut values = Vec::with_capacity(alloc, rows.len())?;
    for i in 0..rows.len() {
        values.push(string_row_value(alloc, rows.get(i))?)?;
    }
    Ok(values)
}

fn number_values<T: Integer>(alloc: Global, rows: &IntegerArray<T>) -> Result<Vec<Value>, PlanError>
    ensures { GivesSeen (λ v. map view v.items) result (map row_data rows.now) }
{
    let mut values = Vec::with_capacity(alloc, rows.len())?;
    for i in 0..rows.len() {
        values.push(number_row_value(rows.get(i)))?;
    }
    Ok(values)
}

fn boolean_value(row: Option<bool>) -> Value
    ensures { view result ≡ row_data (boolean_row row) }
{
    match row {
        None => Value::Null,
        Some(t) => Value::from(t),
    }
}

fn string_row_value(alloc: Global, row: Option<&str>) -> Result<Value, PlanError>
    ensures { GivesSeen view result (row_data (string_row (option_copied row.entry))) }
{
    match row {
        None => Ok(Value::Null),
        Some(text) => build::text_value(alloc, text),
    }
}

fn number_row_value<T: Integer>(row: Option<T>) -> Value
    ensures { view result ≡ row_data (integer_row (option_map T.integer row)) }
{
    match row {
        None => Value::Null,
        Some(n) => number_value(n),
    }
}

/// An integer of an integer type, as a JSON number.
pub fn number_value<T: Integer>(n: T) -> Value
    ensures { view result ≡ number (of_integer (T.integer n)) }
{
    match serde_json::Number::from_i128(n.to_wide()) {
        Some(number) => Value::from(number),
        None => unreachable!(),
    }
}
