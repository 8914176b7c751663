//! Literals: their types, and those of integers.
ghost use Rattle.std.specs.Prelude.{◌≡◌, Some, true, option_map};
ghost use Rattle.px_types.specs.ValueTypes.{holds, default_type};
ghost use Rattle.px_semantics.specs.Rows.{IntegerValue};
ghost use Rattle.px_expr.specs.declared.literal.LiteralValue.TheVariants as lit;
ghost use Rattle.px_meaning.specs.Literals.{literal_of, literal_rows, one_row};
ghost use Rattle.px_meaning.specs.Signatures.{literal_type};

use crate::types::is_boolean_or_integer;
use px_column::Column;
use px_expr::LiteralValue;
use px_types::ValueType;

/// The literal of an integer type with this value.
#[tactic(auto, unfolding(px_types::specs::ValueTypes::holds))]
pub fn literal_of(value_type: ValueType, v: i128) -> LiteralValue
    requires { holds value_type v ≡ true }
    ensures { result ≡ literal_of value_type v }
{
    match value_type {
        ValueType::UInt8 => LiteralValue::UInt8(v as u8),
        ValueType::UInt16 => LiteralValue::UInt16(v as u16),
        ValueType::UInt32 => LiteralValue::UInt32(v as u32),
        ValueType::UInt64 => LiteralValue::UInt64(v as u64),
        ValueType::Int8 => LiteralValue::Int8(v as i8),
        ValueType::Int16 => LiteralValue::Int16(v as i16),
        ValueType::Int32 => LiteralValue::Int32(v as i32),
        ValueType::Int64 => LiteralValue::Int64(v as i64),
        ValueType::Null | ValueType::Boolean | ValueType::String => LiteralValue::Int(v),
    }
}

/// The literal of an integer in its default type, with that type.
#[tactic(auto, unfolding(px_types::specs::ValueTypes::default_type))]
pub fn default_literal(v: i128) -> Option<(LiteralValue, ValueType)>
    ensures { result ≡ option_map (λ k. (literal_of k v, k)) (default_type v) }
{
    if ValueType::Int32.holds(v) {
        Some((literal_of(ValueType::Int32, v), ValueType::Int32))
    } else if ValueType::Int64.holds(v) {
        Some((literal_of(ValueType::Int64, v), ValueType::Int64))
    } else if ValueType::UInt64.holds(v) {
        Some((literal_of(ValueType::UInt64, v), ValueType::UInt64))
    } else {
        None
    }
}

// The type of the literal of a number.
#[tactic(auto, unfolding(px_semantics::specs::Columns::is_column))]
fn number_type(value_type: ValueType, v: i128) -> Option<ValueType>
    ensures { result ≡ literal_type (Some (one_row value_type (Some (IntegerValue v)))) }
{
    if value_type.holds(v) {
        Some(value_type)
    } else {
        None
    }
}

// The type of a series.
#[tactic(auto, using(crate::proofs::Steps::series_typed))]
fn series_type(column: &Column) -> Option<ValueType>
    ensures { result ≡ literal_type (literal_rows (lit.Series column.now)) }
{
    let value_type = column.value_type();
    let _rows = column.len();
    if is_boolean_or_integer(value_type) {
        Some(value_type)
    } else {
        None
    }
}

/// The type of a literal that has one of its own.
#[tactic(auto, unfolding(px_semantics::specs::Columns::is_column))]
pub fn literal_type(value: &LiteralValue) -> Option<ValueType>
    ensures { result ≡ literal_type (literal_rows value.now) }
{
    match value {
        LiteralValue::Null => Some(ValueType::Null),
        LiteralValue::Boolean(_) => Some(ValueType::Boolean),
        LiteralValue::UInt8(v) => number_type(ValueType::UInt8, *v as i128),
        LiteralValue::UInt16(v) => number_type(ValueType::UInt16, *v as i128),
        LiteralValue::UInt32(v) => number_type(ValueType::UInt32, *v as i128),
        LiteralValue::UInt64(v) => number_type(ValueType::UInt64, *v as i128),
        LiteralValue::Int8(v) => number_type(ValueType::Int8, *v as i128),
        LiteralValue::Int16(v) => number_type(ValueType::Int16, *v as i128),
        LiteralValue::Int32(v) => number_type(ValueType::Int32, *v as i128),
        LiteralValue::Int64(v) => number_type(ValueType::Int64, *v as i128),
        LiteralValue::Series(column) => series_type(column),
        _ => None,
    }
}
