//! Literals and their types, by their names.
ghost use Rattle.std.specs.Prelude.{◌≡◌, true, option_map};
ghost use Rattle.serde_json.specs.View.{view};
ghost use Rattle.px_base.specs.Answer.{GivesOrMemory};
ghost use Rattle.px_meaning.specs.Literals.{literal_of};
ghost use Rattle.px_types.specs.ValueTypes.{holds};
ghost use Rattle.px_forms.specs.Names.{literal_type_name, literal_type_named};
ghost use Rattle.px_forms.specs.Form as form_of;

use px_expr::LiteralValue;
use px_json::{integer, two_fields, value_type_name, value_type_named};
use px_types::{PlanError, SmallStr, ValueType};
use serde_json::Value;
use std::alloc::Global;

/// The type that stands beside a literal.
#[derive(Clone, Copy)]
pub enum LiteralType {
    Value(ValueType),
    Int128,
    /// An integer whose type the node above it decides.
    Int,
}

#[tactic(auto, unfolding(crate::specs::Names::literal_type_name))]
pub(crate) fn type_name(value_type: LiteralType) -> &'static str
    ensures { result.now ≡ literal_type_name value_type }
{
    match value_type {
        LiteralType::Value(value_type) => value_type_name(value_type),
        LiteralType::Int128 => "Int128",
        LiteralType::Int => "Int",
    }
}

#[tactic(auto, unfolding(crate::specs::Names::literal_type_named))]
fn type_named(name: &str) -> Option<LiteralType>
    ensures { result ≡ literal_type_named name.now }
{
    if name == "Int128" {
        Some(LiteralType::Int128)
    } else if name == "Int" {
        Some(LiteralType::Int)
    } else {
        value_type_named(name).map(LiteralType::Value)
    }
}

/// The literal that the value stands for: null, true, false, a string or an integer alone, or an
/// integer or the string of its digits with its type. None where no such form fits.
pub(crate) fn literal_of_value(
    alloc: Global,
    value: &Value,
) -> Result<Option<LiteralValue>, PlanError>
    ensures { GivesOrMemory result (form_of.literal (view value.now)) }
{
    match value {
        Value::Null => Ok(Some(LiteralValue::Null)),
        Value::Bool(t) => Ok(Some(LiteralValue::Boolean(*t))),
        Value::String(text) => Ok(Some(LiteralValue::String(SmallStr::new(alloc, text.as_str())?))),
        Value::Number(number) => Ok(number.as_i128().map(LiteralValue::Int)),
        _ => typed_literal(alloc, value),
    }
}

/// A literal with its type.
fn typed_literal(alloc: Global, value: &Value) -> Result<Option<LiteralValue>, PlanError>
    ensures { GivesOrMemory result (form_of.typed_literal (view value.now)) }
{
    let Some((value_type, value)) = typed_parts(value) else {
        return Ok(None);
    };
    let Some(wide) = integer(alloc, value)? else {
        return Ok(None);
    };
    Ok(literal_in(value_type, wide))
}

/// The type and the value of a literal with its type.
fn typed_parts(value: &Value) -> Option<(LiteralType, &Value)>
    ensures { option_map (λ p. (p.0, view p.1.now)) result ≡ form_of.typed_parts (view value.now) }
{
    let (dtype, value) = two_fields(value, "dtype", "value")?;
    let value_type = type_named(dtype.as_str()?)?;
    Some((value_type, value))
}

/// The literal of the type, where that holds the number.
fn literal_in(value_type: LiteralType, wide: i128) -> Option<LiteralValue>
    ensures { result ≡ form_of.literal_in value_type wide }
{
    match value_type {
        LiteralType::Value(value_type) => {
            if value_type.holds(wide) {
                Some(literal_of(value_type, wide))
            } else {
                None
            }
        }
        LiteralType::Int128 => Some(LiteralValue::Int128(wide)),
        LiteralType::Int => Some(LiteralValue::Int(wide)),
    }
}

/// The literal of an integer type that holds the number.
#[tactic(auto, unfolding(px_types::specs::ValueTypes::holds))]
fn literal_of(value_type: ValueType, wide: i128) -> LiteralValue
    requires { holds value_type wide ≡ true }
    ensures { result ≡ literal_of value_type wide }
{
    match value_type {
        ValueType::UInt8 => LiteralValue::UInt8(wide as u8),
        ValueType::UInt16 => LiteralValue::UInt16(wide as u16),
        ValueType::UInt32 => LiteralValue::UInt32(wide as u32),
        ValueType::UInt64 => LiteralValue::UInt64(wide as u64),
        ValueType::Int8 => LiteralValue::Int8(wide as i8),
        ValueType::Int16 => LiteralValue::Int16(wide as i16),
        ValueType::Int32 => LiteralValue::Int32(wide as i32),
        ValueType::Int64 => LiteralValue::Int64(wide as i64),
        ValueType::Null | ValueType::Boolean | ValueType::String => LiteralValue::Int(wide),
    }
}
