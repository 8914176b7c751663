//! The pieces that written values are built of.
ghost use Rattle.serde_json.specs.Data.{string};
ghost use Rattle.serde_json.specs.View.{view};
ghost use Rattle.px_base.specs.Answer.{GivesSeen};
ghost use Rattle.px_json.specs.Built as built;

use px_types::PlanError;
use serde_json::{Value, json};
use std::alloc::Global;

/// An object of one member. The only error is out of memory.
pub fn single_member(alloc: Global, name: &str, value: Value) -> Result<Value, PlanError>
    ensures { GivesSeen view result (built.single_member name.now (view value)) }
{
    Ok(json!(in alloc; {(name): value})?)
}

/// A list of two values. The only error is out of memory.
pub fn pair(alloc: Global, first: Value, second: Value) -> Result<Value, PlanError>
    ensures { GivesSeen view result (built.pair (view first) (view second)) }
{
    Ok(json!(in alloc; [first, second])?)
}

/// A list of three values. The only error is out of memory.
pub fn triple(alloc: Global, first: Value, second: Value, third: Value) -> Result<Value, PlanError>
    ensures { GivesSeen view result (built.triple (view first) (view second) (view third)) }
{
    Ok(json!(in alloc; [first, second, third])?)
}

/// A string. The only error is out of memory.
pub fn text_value(alloc: Global, text: &str) -> Result<Value, PlanError>
    ensures { GivesSeen view result (string text.now) }
{
    Ok(Value::try_from_str(alloc, text)?)
}
