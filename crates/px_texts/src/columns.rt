//! Columns as words: a name, a type and the rows, as `a:Int32(1,null,3)`.

use crate::words::type_named;
use crate::write::write_word;
use px_column::Column;
use px_types::{AnyValue, PlanError, ValueType};
use std::alloc::Global;

// A Boolean is 1 or 0.
fn read_row(word: &str) -> Result<Option<i128>, PlanError> {
    if word == "null" {
        return Ok(None);
    }
    if word == "true" {
        return Ok(Some(1));
    }
    if word == "false" {
        return Ok(Some(0));
    }
    match word.parse::<i128>() {
        Ok(value) => Ok(Some(value)),
        Err(_) => Err(PlanError::OutOfBounds),
    }
}

fn read_rows(alloc: Global, text: &str) -> Result<Vec<Option<i128>>, PlanError> {
    let mut rows = Vec::new(alloc);
    if text.is_empty() {
        return Ok(rows);
    }
    for word in text.split(',') {
        rows.push(read_row(word)?)?;
    }
    Ok(rows)
}

fn booleans(alloc: Global, name: &str, rows: &[Option<i128>]) -> Result<Column, PlanError> {
    let mut booleans = Vec::new(alloc);
    for row in rows {
        booleans.push(row.map(|number| number != 0))?;
    }
    Column::new_bool(alloc, name, booleans.as_slice())
}

fn column_of(
    alloc: Global,
    name: &str,
    value_type: ValueType,
    rows: &[Option<i128>],
) -> Result<Column, PlanError> {
    match value_type {
        ValueType::Null => match u32::try_from(rows.len()) {
            Ok(len) => Column::new_null(alloc, name, len),
            Err(_) => Err(PlanError::TooLong),
        },
        ValueType::Boolean => booleans(alloc, name, rows),
        _ => Column::new_int(alloc, name, value_type.dtype(), rows),
    }
}

/// The column of a word.
pub fn read_column(alloc: Global, word: &str) -> Result<Column, PlanError> {
    let Some((head, rows)) = word.split_once('(') else {
        return Err(PlanError::OutOfBounds);
    };
    let Some((name, value_type)) = head.split_once(':') else {
        return Err(PlanError::OutOfBounds);
    };
    let (Some(value_type), Some(rows)) = (type_named(value_type), rows.strip_suffix(")")) else {
        return Err(PlanError::OutOfBounds);
    };
    let rows = read_rows(alloc, rows)?;
    column_of(alloc, name, value_type, rows.as_slice())
}

fn write_number(alloc: Global, text: &mut String, value: i128) -> Result<(), PlanError> {
    let digits = format!(in alloc; "{value}")?;
    text.push_str(digits.as_str())?;
    Ok(())
}

fn write_name(text: &mut String, name: &str) -> Result<(), PlanError> {
    text.push_str(name)?;
    Ok(())
}

fn write_row(alloc: Global, text: &mut String, value: AnyValue<'_>) -> Result<(), PlanError> {
    match value {
        AnyValue::Null => write_name(text, "null"),
        AnyValue::Boolean(true) => write_name(text, "true"),
        AnyValue::Boolean(false) => write_name(text, "false"),
        AnyValue::UInt8(value) => write_number(alloc, text, i128::from(value)),
        AnyValue::UInt16(value) => write_number(alloc, text, i128::from(value)),
        AnyValue::UInt32(value) => write_number(alloc, text, i128::from(value)),
        AnyValue::UInt64(value) => write_number(alloc, text, i128::from(value)),
        AnyValue::Int8(value) => write_number(alloc, text, i128::from(value)),
        AnyValue::Int16(value) => write_number(alloc, text, i128::from(value)),
        AnyValue::Int32(value) => write_number(alloc, text, i128::from(value)),
        AnyValue::Int64(value) => write_number(alloc, text, i128::from(value)),
        _ => write_name(text, "other"),
    }
}

fn write_rows(alloc: Global, text: &mut String, column: &Column) -> Result<(), PlanError> {
    for i in 0..column.len() {
        if i > 0 {
            write_name(text, ",")?;
        }
        write_row(alloc, text, column.get(i))?;
    }
    Ok(())
}

/// Writes the word of a column.
pub fn write_column(alloc: Global, text: &mut String, column: &Column) -> Result<(), PlanError> {
    let name = column.name().as_str();
    let value_type = column.value_type();
    let start = format!(in alloc; "{name}:{value_type:?}(")?;
    write_word(text, start.as_str())?;
    write_rows(alloc, text, column)?;
    write_name(text, ")")
}
