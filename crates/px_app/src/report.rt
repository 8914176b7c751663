//! The report of a run.
ghost use Rattle.std.specs.Prelude.{◌≡◌, IsSome, Some, IfOk, false};
ghost use Rattle.serde_json.specs.View.{view};
ghost use Rattle.serde_json.specs.Written.{has_float};
ghost use Rattle.px_base.specs.Answer.{GivesSeen};
ghost use Rattle.px_forms.specs.Written.{all_data};
ghost use Rattle.px_document.specs.Report.{report};
ghost use Rattle.px_eval.specs.Selected.{answered};

use px_document::report_of;
use px_eval::Collected;
use px_types::PlanError;
use serde_json::Value;
use std::alloc::Global;

/// `{"columns": list, "rewrites": n, "trees": list}`, one value a column and one a tree. Each tree
/// has a form, as each tree of a run has. The only error is out of memory.
pub fn report_value(alloc: Global, collected: &Collected) -> Result<Value, PlanError>
    requires { IsSome (all_data (answered collected.now)) }
    ensures value { GivesSeen (λ v. Some (view v)) result
        (report collected.now.columns (answered collected.now) collected.now.rewrites) }

    // It has no float, so its compact text is known.
    ensures plain { IfOk result (λ v. has_float (view v) ≡ false) }
{
    let columns = collected.columns().as_slice();
    let trees = collected.trees().as_slice();
    match report_of(alloc, columns, trees, collected.rewrites())? {
        Some(value) => Ok(value),
        None => unreachable!("each tree has a form"),
    }
}
