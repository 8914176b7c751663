//! The report of a run, and the line of an error.
ghost use Rattle.std.specs.Prelude.{◌≡◌, map, option_map, IfOk, IfSome, false};
ghost use Rattle.serde_json.specs.View.{view, items_view};
ghost use Rattle.serde_json.specs.Written.{has_float, items_have_float};
ghost use Rattle.px_expr.specs.Tree.{tree_of};
ghost use Rattle.px_base.specs.Answer.{GivesSeen};
ghost use Rattle.px_document.specs.Report as spec;

use px_column::Column;
use px_expr::Expr;
use px_forms::values_of_exprs;
use px_json::{single_member, text_value, values_of_columns};
use px_types::PlanError;
use serde_json::{Value, json};
use std::alloc::Global;

/// `{"columns": list, "rewrites": n, "trees": list}`, one value a column and one a tree, or None
/// where a tree has no form. The only error is out of memory.
pub fn report_of(
    alloc: Global,
    columns: &[Column],
    trees: &[Expr],
    rewrites: u64,
) -> Result<Option<Value>, PlanError>
    ensures value { GivesSeen (option_map view) result
        (spec.report columns.now (map tree_of trees.now) rewrites) }

    // It has no float, so its compact text is known.
    ensures plain { IfOk result (λ o. IfSome o (λ v. has_float (view v) ≡ false)) }
{
    let Some(trees) = values_of_exprs(alloc, trees)? else {
        return Ok(None);
    };
    let columns = values_of_columns(alloc, columns)?;
    Ok(Some(report_value(alloc, columns, trees, rewrites)?))
}

fn report_value(
    alloc: Global,
    columns: Vec<Value>,
    trees: Vec<Value>,
    rewrites: u64,
) -> Result<Value, PlanError>
    requires columns { items_have_float (items_view columns.items) ≡ false }
    requires trees { items_have_float (items_view trees.items) ≡ false }
    ensures value { GivesSeen view result
        (spec.report_data (map view columns.items) rewrites (map view trees.items)) }
    ensures plain { IfOk result (λ v. has_float (view v) ≡ false) }
{
    Ok(json!(in alloc; {"columns": columns, "rewrites": rewrites, "trees": trees})?)
}

/// `{"error": variant}`, with `"name"` beside it for an error that keeps a name. The only error is
/// out of memory.
pub fn error_value(alloc: Global, error: &PlanError) -> Result<Value, PlanError>
    ensures value { GivesSeen view result (spec.error_data error.now) }

    // It has no float, so its compact text is known.
    ensures plain { IfOk result (λ v. has_float (view v) ≡ false) }
{
    error_in(alloc, error)
}

fn error_in(alloc: Global, error: &PlanError) -> Result<Value, PlanError>
    ensures { GivesSeen view result (spec.error_data error.now) }
{
    match error {
        PlanError::OutOfMemory => plain_error(alloc, "OutOfMemory"),
        PlanError::ColumnNotFound(name) => named_error(alloc, "ColumnNotFound", name.as_str()),
        PlanError::InvalidOperation => plain_error(alloc, "InvalidOperation"),
        PlanError::Duplicate(name) => named_error(alloc, "Duplicate", name.as_str()),
        PlanError::ShapeMismatch => plain_error(alloc, "ShapeMismatch"),
        PlanError::InvalidCast => plain_error(alloc, "InvalidCast"),
        PlanError::OutOfBounds => plain_error(alloc, "OutOfBounds"),
        PlanError::TooLong => plain_error(alloc, "TooLong"),
        PlanError::KernelFailed => plain_error(alloc, "KernelFailed"),
    }
}

fn plain_error(alloc: Global, value_type: &str) -> Result<Value, PlanError>
    ensures { GivesSeen view result (spec.plain_error value_type.now) }
{
    let value_type = text_value(alloc, value_type)?;
    single_member(alloc, "error", value_type)
}

fn named_error(alloc: Global, value_type: &str, name: &str) -> Result<Value, PlanError>
    ensures { GivesSeen view result (spec.named_error value_type.now name.now) }
{
    Ok(json!(in alloc; {"error": value_type, "name": name})?)
}

/// The value's compact text and a line feed. A float has no text that a clause states. The only
/// error is out of memory.
pub fn line(alloc: Global, value: &Value) -> Result<Vec<u8>, PlanError>
    requires { has_float (view value.now) ≡ false }
    ensures { GivesSeen (λ text. text.items) result (spec.line (view value.now)) }
{
    let mut text = value.to_vec(alloc)?;
    text.push(b'\n')?;
    Ok(text)
}
