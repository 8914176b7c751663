//! A single value with its type.
ghost use Rattle.std.specs.Prelude.{◌≡◌, None, ◌↔◌, IsNone};
ghost use Rattle.px_types.specs.ValueTypes.{default_type};
ghost use Rattle.px_types.specs.AnyValues.{materialized};

use crate::dtype::DataType;
use crate::value_type::{ValueType, default_type};

/// A single value with its type, or a range of integers. The names are Polars'.
#[derive(Drop)]
pub enum AnyValue<'a> {
    Null,
    Boolean(bool),
    String(&'a str),
    Binary(&'a [u8]),
    UInt8(u8),
    UInt16(u16),
    UInt32(u32),
    UInt64(u64),
    Int8(i8),
    Int16(i16),
    Int32(i32),
    Int64(i64),
    Int128(i128),
    Range {
        low: i64,
        high: i64,
        dtype: DataType,
    },
}

/// An integer literal as a value of its default type: the first of `Int32`, `Int64` and `UInt64`
/// that has it, and None where none has it. The rule is our own.
#[tactic(auto, unfolding(crate::specs::ValueTypes::default_type, crate::specs::ValueTypes::holds))]
pub fn materialize_dyn_int(v: i128) -> Option<AnyValue<'static>>
    ensures value { result ≡ materialized v }
    ensures none { IsNone result ↔ (default_type v ≡ None) }
{
    match default_type(v)? {
        ValueType::Int32 => Some(AnyValue::Int32(v as i32)),
        ValueType::Int64 => Some(AnyValue::Int64(v as i64)),
        ValueType::UInt64 => Some(AnyValue::UInt64(v as u64)),
        _ => None,
    }
}
