//! Integers of up to 128 bits, as numbers or as strings of their decimal digits.
ghost use Rattle.serde_json.specs.View.{view};
ghost use Rattle.px_base.specs.Answer.{GivesOrMemory, GivesSeen};
ghost use Rattle.px_json.specs.Digits as digits;
ghost use Rattle.px_json.specs.Digits.{integer_of_text, integer_data};

use crate::access;
use px_types::PlanError;
use serde_json::Value;
use std::alloc::Global;

/// The number whose decimal digits the string has. A `+`, a leading zero, `-0` and a number of more
/// than 128 bits are none. The only error is out of memory.
fn integer_of_text(alloc: Global, text: &str) -> Result<Option<i128>, PlanError>
    ensures { GivesOrMemory result (integer_of_text text.now) }
{
    let Ok(number) = text.parse::<i128>() else {
        return Ok(None);
    };
    let digits = number.to_string(alloc)?;
    if digits.as_str() == text {
        Ok(Some(number))
    } else {
        Ok(None)
    }
}

/// The integer that the value is, or whose decimal digits it is as a string. None for a float, a
/// string of anything else, and every other value. The only error is out of memory.
pub fn integer(alloc: Global, value: &Value) -> Result<Option<i128>, PlanError>
    ensures { GivesOrMemory result (digits.integer (view value.now)) }
{
    match value.as_str() {
        Some(text) => integer_of_text(alloc, text),
        None => Ok(access::integer_of(value)),
    }
}

/// The number, where JSON has it: from -2^63 to 2^64 - 1. Else the string of its decimal digits.
/// The only error is out of memory.
pub fn integer_value(alloc: Global, number: i128) -> Result<Value, PlanError>
    ensures { GivesSeen view result (integer_data number) }
{
    match serde_json::Number::from_i128(number) {
        Some(number) => Ok(Value::from(number)),
        None => {
            let digits = number.to_string(alloc)?;
            Ok(Value::from(digits))
        }
    }
}
