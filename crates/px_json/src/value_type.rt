//! The types of columns, by their names.
ghost use Rattle.std.specs.Prelude.{◌≡◌};
ghost use Rattle.px_json.specs.Names.{value_type_name, value_type_named};

use px_types::ValueType;

/// The name of the type, as Polars spells it.
#[tactic(auto, unfolding(crate::specs::Names::value_type_name))]
pub fn value_type_name(value_type: ValueType) -> &'static str
    ensures { result.now ≡ value_type_name value_type }
{
    match value_type {
        ValueType::Null => "Null",
        ValueType::Boolean => "Boolean",
        ValueType::String => "String",
        ValueType::UInt8 => "UInt8",
        ValueType::UInt16 => "UInt16",
        ValueType::UInt32 => "UInt32",
        ValueType::UInt64 => "UInt64",
        ValueType::Int8 => "Int8",
        ValueType::Int16 => "Int16",
        ValueType::Int32 => "Int32",
        ValueType::Int64 => "Int64",
    }
}

/// The type that has the name, and None where none has it.
#[tactic(auto, unfolding(crate::specs::Names::value_type_named))]
pub fn value_type_named(name: &str) -> Option<ValueType>
    ensures { result ≡ value_type_named name.now }
{
    if name == "Null" {
        Some(ValueType::Null)
    } else if name == "Boolean" {
        Some(ValueType::Boolean)
    } else if name == "String" {
        Some(ValueType::String)
    } else if name == "UInt8" {
        Some(ValueType::UInt8)
    } else if name == "UInt16" {
        Some(ValueType::UInt16)
    } else if name == "UInt32" {
        Some(ValueType::UInt32)
    } else if name == "UInt64" {
        Some(ValueType::UInt64)
    } else if name == "Int8" {
        Some(ValueType::Int8)
    } else if name == "Int16" {
        Some(ValueType::Int16)
    } else if name == "Int32" {
        Some(ValueType::Int32)
    } else if name == "Int64" {
        Some(ValueType::Int64)
    } else {
        None
    }
}
