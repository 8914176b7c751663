//! The answer of each function and of each call of the mapper over each list of fields.

use crate::table::{CALLS, FUNCTIONS, fields_at, function_at};
use crate::types::text_of;
use px_base::PlanError;
use px_fields::{FieldsMapper, GetField};
use px_functions::FunctionExpr;
use px_types::{DataType, Field};
use std::alloc::Global;
use std::test::Fail;

// Writes an answer: its type, or a dash where there is none. A name other than the first field's
// shows.
fn put_answer(
    alloc: Global,
    row: &mut String,
    answer: Result<Field, PlanError>,
) -> Result<(), PlanError> {
    match answer {
        Ok(field) => {
            if field.name.as_str() != "a" {
                row.push_str("another name: ")?;
            }
            row.push_str(text_of(alloc, &field.dtype)?.as_str())?;
        }
        Err(PlanError::InvalidOperation) => row.push_str("-")?,
        Err(error) => return Err(error),
    }
    Ok(())
}

// The answers of a function over each list of fields.
fn put_answers<F: GetField>(
    alloc: Global,
    row: &mut String,
    function: &F,
) -> Result<(), PlanError> {
    for place in 0..100 {
        let Some(fields) = fields_at(alloc, place)? else {
            break;
        };
        if 0 < place {
            row.push_str("; ")?;
        }
        put_answer(alloc, row, function.get_field(alloc, fields.as_slice()))?;
    }
    Ok(())
}

// The row of a function, whose answers are those of `part`.
fn row_of<F: GetField>(
    alloc: Global,
    function: &FunctionExpr,
    part: &F,
) -> Result<String, PlanError> {
    let mut row = format!(in alloc; "{function}: ")?;
    put_answers(alloc, &mut row, part)?;
    Ok(row)
}

// The call of the mapper at this place.
fn call(alloc: Global, mapper: &FieldsMapper, place: usize) -> Result<Field, PlanError> {
    match place {
        0 => mapper.with_same_dtype(alloc),
        1 => mapper.with_dtype(alloc, DataType::Time),
        2 => mapper.map_dtype(alloc, |_| DataType::Time),
        3 => mapper.try_map_dtype(alloc, |_| Err(PlanError::InvalidOperation)),
        4 => mapper.try_map_dtypes(alloc, |fields| {
            Ok(if 1 < fields.len() {
                DataType::Int8
            } else {
                DataType::Time
            })
        }),
        5 => mapper.try_map_field(alloc, |field| field.try_clone(alloc)),
        6 => mapper.map_to_float_dtype(alloc),
        7 => mapper.map_numeric_to_float_dtype(alloc),
        8 => mapper.to_physical_type(alloc),
        9 => mapper.map_to_supertype(alloc),
        10 => mapper.map_to_list_and_array_inner_dtype(alloc),
        11 => mapper.try_map_to_array_inner_dtype(alloc),
        12 => mapper.map_to_list_supertype(alloc),
        13 => mapper.map_datetime_dtype_timezone(alloc, None),
        14 => mapper.nested_sum_type(alloc),
        15 => mapper.with_opt_dtype(alloc, None),
        16 => mapper.replace_dtype(alloc, Some(DataType::Time)),
        _ => if 2 < mapper.get_fields_lens() {
            mapper.replace_dtype(alloc, None)
        } else {
            mapper.replace_dtype(alloc, Some(DataType::Time))
        },
    }
}

// The answers of a call over each list of fields but the empty one.
fn call_answers(alloc: Global, place: usize) -> Result<String, PlanError> {
    let mut row = String::new(alloc);
    for list in 1..100 {
        let Some(fields) = fields_at(alloc, list)? else {
            break;
        };
        if 1 < list {
            row.push_str("; ")?;
        }
        let fields = fields.as_slice();
        if !fields.is_empty() {
            put_answer(
                alloc,
                &mut row,
                call(alloc, &FieldsMapper::new(fields), place),
            )?;
        }
    }
    Ok(row)
}

// Each variant is there, with its text and its type over each list of fields. What a variant holds
// has the same type.
#[test]
fn functions_have_their_texts_and_types(rt: HostRuntime) -> Result<(), Fail> {
    let alloc = rt.alloc();
    for (place, row) in FUNCTIONS.iter().enumerate() {
        let Some(function) = function_at(alloc, place)? else {
            assert_eq!(rt; *row, "");
            return Ok(());
        };
        assert_eq!(rt; row_of(alloc, &function, &function)?.as_str(), *row);
        match &function {
            FunctionExpr::Boolean(part) => {
                assert_eq!(rt; row_of(alloc, &function, part)?.as_str(), *row);
            }
            FunctionExpr::Bitwise(part) => {
                assert_eq!(rt; row_of(alloc, &function, part)?.as_str(), *row);
            }
            _ => {}
        }
    }
    Ok(())
}

#[test]
fn calls_of_the_mapper_answer_their_types(rt: HostRuntime) -> Result<(), Fail> {
    let alloc = rt.alloc();
    for (place, row) in CALLS.iter().enumerate() {
        assert_eq!(rt; call_answers(alloc, place)?.as_str(), *row);
    }
    Ok(())
}
