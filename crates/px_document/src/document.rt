//! Documents, read from a value or from bytes.
ghost use Rattle.std.specs.Prelude.{option_map};
ghost use Rattle.serde_json.specs.View.{view, items_view};
ghost use Rattle.px_base.specs.Answer.{GivesOrMemory, GivesSeen};
ghost use Rattle.px_document.specs.Document as spec;

use px_column::Frame;
use px_expr::ExprList;
use px_forms::exprs_of_values;
use px_json::{columns_of_values, two_lists};
use px_types::PlanError;
use serde_json::Value;
use std::alloc::Global;

/// Columns of one height, and expressions over them.
#[derive(Drop)]
pub struct Document {
    /// The columns.
    pub frame: Frame,
    /// The expressions, in order.
    pub exprs: ExprList,
}

/// The document that the value stands for: an object with exactly the keys `columns` and `exprs`,
/// whose columns have distinct names and one height. None for every other value. The only error is
/// out of memory.
pub fn document_of(alloc: Global, value: &Value) -> Result<Option<Document>, PlanError>
    ensures document { GivesOrMemory result (spec.document_of_data (view value.now)) }
{
    let Some((columns, exprs)) = two_lists(value, "columns", "exprs") else {
        return Ok(None);
    };
    let Some(frame) = frame_of(alloc, columns)? else {
        return Ok(None);
    };
    let Some(exprs) = exprs_of_values(alloc, exprs)? else {
        return Ok(None);
    };
    Ok(Some(Document { frame, exprs }))
}

/// The columns' frame, or None where a value is no column or the columns have no frame.
fn frame_of(alloc: Global, values: &[Value]) -> Result<Option<Frame>, PlanError>
    ensures { GivesOrMemory result (spec.frame_in (items_view values.now)) }
{
    let Some(columns) = columns_of_values(alloc, values)? else {
        return Ok(None);
    };
    match Frame::new(alloc, columns) {
        Ok(frame) => Ok(Some(frame)),
        Err(PlanError::OutOfMemory) => Err(PlanError::OutOfMemory),
        Err(_) => Ok(None),
    }
}

/// The document that the bytes are, or None where they are no UTF-8, no JSON or no document. The
/// value that they are read into is dropped before this returns. The only error is out of memory.
pub fn document_of_bytes(alloc: Global, bytes: &[u8]) -> Result<Option<Document>, PlanError>
    ensures document { GivesOrMemory result (spec.document_of_bytes bytes.now) }
{
    let Some(value) = value_of_bytes(alloc, bytes)? else {
        return Ok(None);
    };
    document_of(alloc, &value)
}

fn value_of_bytes(alloc: Global, bytes: &[u8]) -> Result<Option<Value>, PlanError>
    ensures { GivesSeen (option_map view) result (spec.value_of_bytes bytes.now) }
{
    match Value::from_slice(alloc, bytes) {
        Ok(value) => Ok(Some(value)),
        Err(error) => {
            if error.is_memory() {
                Err(PlanError::OutOfMemory)
            } else {
                Ok(None)
            }
        }
    }
}
