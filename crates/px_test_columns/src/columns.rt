//! Columns of tests as plain data: how they are made, and whether a column is the wanted one.

use px_column::Column;
use px_types::{AnyValue, PlanError, SmallStr, ValueType};
use std::alloc::Global;

/// The type of a column and its rows. A Boolean is 1 or 0, and a string stands under its number.
pub type Rows<'a> = (ValueType, &'a [Option<i128>]);

/// The rows of an answer, or the name of an error.
pub type Want<'a> = Result<Rows<'a>, &'static str>;

fn text(number: i128) -> &'static str {
    match number {
        0 => "",
        1 => "a",
        2 => "ab",
        3 => "z",
        _ => "é",
    }
}

fn bools(alloc: Global, name: &str, values: &[Option<i128>]) -> Result<Column, PlanError> {
    let mut booleans = Vec::with_capacity(alloc, values.len())?;
    for value in values {
        booleans.push(value.map(|number| number != 0))?;
    }
    Column::new_bool(alloc, name, booleans.as_slice())
}

fn push_text(
    alloc: Global,
    texts: &mut Vec<Option<SmallStr>>,
    value: Option<i128>,
) -> Result<(), PlanError> {
    let row = match value {
        Some(number) => Some(SmallStr::new(alloc, text(number))?),
        None => None,
    };
    texts.push(row)?;
    Ok(())
}

fn texts(alloc: Global, name: &str, values: &[Option<i128>]) -> Result<Column, PlanError> {
    let mut texts = Vec::new(alloc);
    for value in values {
        push_text(alloc, &mut texts, *value)?;
    }
    Column::new_text(alloc, name, texts.as_slice())
}

fn made(alloc: Global, name: &str, rows: Rows) -> Result<Column, PlanError> {
    let (value_type, values) = rows;
    match value_type {
        ValueType::Null => match u32::try_from(values.len()) {
            Ok(len) => Column::new_null(alloc, name, len),
            Err(_) => Err(PlanError::TooLong),
        },
        ValueType::Boolean => bools(alloc, name, values),
        ValueType::String => texts(alloc, name, values),
        _ => Column::new_int(alloc, name, value_type.dtype(), values),
    }
}

/// A column of these rows, which had another name before.
pub fn column(alloc: Global, name: &str, rows: Rows) -> Result<Column, PlanError> {
    let name = SmallStr::new(alloc, name)?;
    Ok(made(alloc, "former", rows)?.rename(name))
}

/// Whether the value is the row.
fn is_row(value: AnyValue, row: Option<i128>) -> bool {
    match value {
        AnyValue::Null => row.is_none(),
        AnyValue::Boolean(truth) => row == Some(i128::from(truth)),
        AnyValue::String(bytes) => match row {
            Some(number) => bytes == text(number),
            None => false,
        },
        AnyValue::Int8(number) => row == Some(i128::from(number)),
        AnyValue::Int16(number) => row == Some(i128::from(number)),
        AnyValue::Int32(number) => row == Some(i128::from(number)),
        AnyValue::Int64(number) => row == Some(i128::from(number)),
        AnyValue::UInt8(number) => row == Some(i128::from(number)),
        AnyValue::UInt16(number) => row == Some(i128::from(number)),
        AnyValue::UInt32(number) => row == Some(i128::from(number)),
        AnyValue::UInt64(number) => row == Some(i128::from(number)),
        _ => false,
    }
}

fn nulls(values: &[Option<i128>]) -> u32 {
    let mut count = 0;
    for value in values {
        if value.is_none() {
            count = u32::saturating_add(count, 1);
        }
    }
    count
}

/// Whether the rows of the column begin with these.
fn begins(column: &Column, values: &[Option<i128>]) -> bool {
    for i in 0..column.len() {
        match values.get(i as usize) {
            Some(row) => {
                if !is_row(column.get(i), *row) {
                    return false;
                }
            }
            None => return false,
        }
    }
    true
}

/// Of 64 rows from a row on, the word of those that are true, or of those that are not null.
fn word(values: &[Option<i128>], start: usize, valid: bool) -> u64 {
    let mut word = 0;
    for i in 0..64_u32 {
        if let Some(Some(number)) = values.get(start.saturating_add(i as usize)) {
            if valid || *number != 0 {
                word |= 1_u64 << i;
            }
        }
    }
    word
}

fn are_words(words: &[u64], values: &[Option<i128>], valid: bool) -> bool {
    for i in 0..words.len() {
        if words[i] != word(values, i.saturating_mul(64), valid) {
            return false;
        }
    }
    words.len() == values.len().div_ceil(64)
}

/// Whether a Boolean column has the bitmaps of the rows, and another column none.
fn has_bitmaps(column: &Column, rows: Rows) -> bool {
    let (value_type, values) = rows;
    match (column.truth_words(), column.valid_words()) {
        (Some(truth), Some(valid)) => {
            are_words(truth, values, false) && are_words(valid, values, true)
        }
        (None, None) => value_type != ValueType::Boolean,
        _ => false,
    }
}

/// Whether the column is named `a` and has the type and the rows.
fn reads(column: &Column, rows: Rows) -> bool {
    let (value_type, values) = rows;
    column.name().as_str() == "a"
        && column.value_type() == value_type
        && *column.dtype() == value_type.dtype()
        && column.len() as usize == values.len()
        && column.null_count() == nulls(values)
        && begins(column, values)
        && has_bitmaps(column, rows)
}

/// The name of an error.
pub fn fault(error: &PlanError) -> &'static str {
    match error {
        PlanError::ShapeMismatch => "ShapeMismatch",
        PlanError::InvalidOperation => "InvalidOperation",
        PlanError::InvalidCast => "InvalidCast",
        PlanError::OutOfBounds => "OutOfBounds",
        PlanError::Duplicate(_) => "Duplicate",
        _ => "another",
    }
}

/// The answer to a call that breaks the kernel's rules.
pub fn wrong_call() -> Result<Column, PlanError> {
    Err(PlanError::KernelFailed)
}

/// Whether the answer is the wanted one.
pub fn agrees(got: Result<Column, PlanError>, want: Want) -> bool {
    match (&got, want) {
        (Ok(column), Ok(rows)) => reads(column, rows),
        (Err(error), Err(name)) => fault(error) == name,
        _ => false,
    }
}
