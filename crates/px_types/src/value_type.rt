//! The types that a column may have.
ghost use Rattle.std.specs.Prelude.{◌≡◌, IsTrue, ◌↔◌};
ghost use Rattle.px_types.specs.Classes.{is_integer_value};
ghost use Rattle.px_types.specs.Integers.{InRange, IsInteger};
ghost use Rattle.px_types.specs.ValueTypes.{dtype_of, common, common_dtype, holds, default_type};

use crate::dtype::DataType;

/// The type of a column's values.
#[derive(Clone, Copy, Debug, PartialEq, Eq, Hash)]
pub enum ValueType {
    Null,
    Boolean,
    String,
    UInt8,
    UInt16,
    UInt32,
    UInt64,
    Int8,
    Int16,
    Int32,
    Int64,
}

impl ValueType {
    /// The type of the same name.
    pub fn dtype(self) -> DataType
        ensures { result ≡ dtype_of self }
    {
        match self {
            ValueType::Null => DataType::Null,
            ValueType::Boolean => DataType::Boolean,
            ValueType::String => DataType::String,
            ValueType::UInt8 => DataType::UInt8,
            ValueType::UInt16 => DataType::UInt16,
            ValueType::UInt32 => DataType::UInt32,
            ValueType::UInt64 => DataType::UInt64,
            ValueType::Int8 => DataType::Int8,
            ValueType::Int16 => DataType::Int16,
            ValueType::Int32 => DataType::Int32,
            ValueType::Int64 => DataType::Int64,
        }
    }

    /// Whether the type is one of the eight integer types.
    pub fn is_integer(self) -> bool
        ensures value { result ≡ is_integer_value self }
        ensures integer { IsTrue result ↔ IsInteger self }
    {
        match self {
            ValueType::Null | ValueType::Boolean | ValueType::String => false,
            _ => true,
        }
    }

    /// The common type of two value types. It is a value type, but for `UInt64` with a signed type,
    /// which have `Float64`. None where one is `String` and the other neither `String` nor `Null`.
    /// The table is our own.
    #[tactic(auto, unfolding(crate::specs::ValueTypes::common_dtype))]
    pub fn common_dtype(self, other: ValueType) -> Option<DataType>
        ensures { result ≡ common_dtype self other }
    {
        use ValueType::*;

        match (self, other) {
            (Null, _) => Some(other.dtype()),
            (_, Null) => Some(self.dtype()),
            (Boolean, Boolean) => Some(DataType::Boolean),
            (String, String) => Some(DataType::String),
            (String, _) | (_, String) => None,
            (Boolean | UInt8, UInt8) | (UInt8, Boolean) => Some(DataType::UInt8),
            (Boolean | UInt8 | UInt16, UInt16) | (UInt16, Boolean | UInt8) => Some(
                DataType::UInt16,
            ),
            (Boolean | UInt8 | UInt16 | UInt32, UInt32) | (UInt32, Boolean | UInt8 | UInt16) => {
                Some(DataType::UInt32)
            }
            (UInt64, Int8 | Int16 | Int32 | Int64) | (Int8 | Int16 | Int32 | Int64, UInt64) => {
                Some(DataType::Float64)
            }
            (UInt64, _) | (_, UInt64) => Some(DataType::UInt64),
            // Each line from here on leaves the narrower types to the next, and a signed type to one side.
            (Boolean | Int8, Int8) | (Int8, Boolean) => Some(DataType::Int8),
            (Int64 | UInt32, _) | (_, Int64 | UInt32) => Some(DataType::Int64),
            (Int32 | UInt16, _) | (_, Int32 | UInt16) => Some(DataType::Int32),
            (UInt8 | Int8 | Int16 | Boolean, _) => Some(DataType::Int16),
        }
    }

    /// The common type of two value types, and None where they have none or it is no value type.
    #[tactic(auto, unfolding(crate::specs::ValueTypes::common))]
    pub fn common(self, other: ValueType) -> Option<ValueType>
        ensures { result ≡ common self other }
    {
        self.common_dtype(other)?.value_type()
    }

    /// Whether the integer is one of the type's. A type that is no integer type has none.
    #[tactic(auto, unfolding(crate::specs::ValueTypes::holds))]
    pub fn holds(self, v: i128) -> bool
        ensures value { result ≡ holds self v }
        ensures range { IsTrue result ↔ InRange self v }
    {
        match self {
            ValueType::UInt8 => 0 <= v && v < 1 << 8,
            ValueType::UInt16 => 0 <= v && v < 1 << 16,
            ValueType::UInt32 => 0 <= v && v < 1 << 32,
            ValueType::UInt64 => 0 <= v && v < 1 << 64,
            ValueType::Int8 => -(1 << 7) <= v && v < 1 << 7,
            ValueType::Int16 => -(1 << 15) <= v && v < 1 << 15,
            ValueType::Int32 => -(1 << 31) <= v && v < 1 << 31,
            ValueType::Int64 => -(1 << 63) <= v && v < 1 << 63,
            ValueType::Null | ValueType::Boolean | ValueType::String => false,
        }
    }
}

/// The default type of an integer literal: the first of `Int32`, `Int64` and `UInt64` that has it,
/// and None where none has it. The rule is our own.
#[tactic(auto, unfolding(crate::specs::ValueTypes::default_type))]
pub fn default_type(v: i128) -> Option<ValueType>
    ensures { result ≡ default_type v }
{
    if ValueType::Int32.holds(v) {
        Some(ValueType::Int32)
    } else if ValueType::Int64.holds(v) {
        Some(ValueType::Int64)
    } else if ValueType::UInt64.holds(v) {
        Some(ValueType::UInt64)
    } else {
        None
    }
}

impl From<ValueType> for DataType {
    ghost use Rattle.std.specs.Prelude.{◌≡◌};
    ghost use Rattle.px_types.specs.ValueTypes.{dtype_of};

    ghost from_gives = { λ value dtype. dtype ≡ dtype_of value };

    fn from(value: ValueType) -> DataType {
        value.dtype()
    }
}
