//! What the rules about types read of a type.
ghost use Rattle.std.specs.Prelude.{◌≡◌};
ghost use Rattle.px_types.specs.Classes.{class_of, unknown_class, is_boolean_or_integer, is_narrow, is_integer_value, is_unsigned_value, is_integer, is_unsigned_integer, is_float, is_primitive_numeric};

use crate::dtype::DataType;
use crate::type_parts::UnknownKind;
use crate::value_type::ValueType;

/// A type as the table of common types and the tests of types read it.
#[derive(Clone, Copy)]
pub enum Class {
    Value(ValueType),
    Int128,
    Float32,
    Float64,
    /// A literal of this integer that has no type yet.
    Integer(i128),
    /// A literal with a fraction that has no type yet.
    Float,
    /// A literal of a text that has no type yet.
    Str,
    /// A type of which nothing is known.
    Anything,
    Other,
}

impl UnknownKind {
    fn class(self) -> Class
        ensures { result ≡ unknown_class self }
    {
        match self {
            UnknownKind::Any => Class::Anything,
            UnknownKind::Int(v) => Class::Integer(v),
            UnknownKind::Float => Class::Float,
            UnknownKind::Str => Class::Str,
        }
    }
}

impl DataType {
    pub(crate) fn class(&self) -> Class
        ensures { result ≡ class_of self.now }
    {
        match self {
            DataType::Null => Class::Value(ValueType::Null),
            DataType::Boolean => Class::Value(ValueType::Boolean),
            DataType::String => Class::Value(ValueType::String),
            DataType::UInt8 => Class::Value(ValueType::UInt8),
            DataType::UInt16 => Class::Value(ValueType::UInt16),
            DataType::UInt32 => Class::Value(ValueType::UInt32),
            DataType::UInt64 => Class::Value(ValueType::UInt64),
            DataType::Int8 => Class::Value(ValueType::Int8),
            DataType::Int16 => Class::Value(ValueType::Int16),
            DataType::Int32 => Class::Value(ValueType::Int32),
            DataType::Int64 => Class::Value(ValueType::Int64),
            DataType::Int128 => Class::Int128,
            DataType::Float32 => Class::Float32,
            DataType::Float64 => Class::Float64,
            DataType::Unknown(value_type) => value_type.class(),
            _ => Class::Other,
        }
    }

    /// Whether the type is an integer type, `Int128` among them. An unknown type is none.
    pub fn is_integer(&self) -> bool
        ensures { result ≡ is_integer self.now }
    {
        match self.class() {
            Class::Value(value) => value.is_integer(),
            Class::Int128 => true,
            _ => false,
        }
    }

    /// Whether the type is `Float32` or `Float64`. An unknown type is neither.
    pub fn is_float(&self) -> bool
        ensures { result ≡ is_float self.now }
    {
        matches!(*self, DataType::Float32 | DataType::Float64)
    }

    /// Whether the type is an integer type or a float type. An unknown type is neither.
    pub fn is_primitive_numeric(&self) -> bool
        ensures { result ≡ is_primitive_numeric self.now }
    {
        self.is_integer() || self.is_float()
    }

    /// Whether the type is an unsigned integer type. An unknown type is none.
    pub fn is_unsigned_integer(&self) -> bool
        ensures { result ≡ is_unsigned_integer self.now }
    {
        match self.class() {
            Class::Value(value) => value.is_unsigned(),
            _ => false,
        }
    }
}

impl ValueType {
    // Whether it is an unsigned integer type.
    fn is_unsigned(self) -> bool
        ensures { result ≡ is_unsigned_value self }
    {
        match self {
            ValueType::UInt8 | ValueType::UInt16 | ValueType::UInt32 | ValueType::UInt64 => true,
            _ => false,
        }
    }

    // Whether it is `Boolean` or an integer type.
    pub(crate) fn is_boolean_or_integer(self) -> bool
        ensures { result ≡ is_boolean_or_integer self }
    {
        match self {
            ValueType::Null | ValueType::String => false,
            _ => true,
        }
    }

    // Whether it is `Boolean` or an integer type of at most 16 bits.
    pub(crate) fn is_narrow(self) -> bool
        ensures { result ≡ is_narrow self }
    {
        match self {
            ValueType::Boolean
            | ValueType::UInt8
            | ValueType::UInt16
            | ValueType::Int8
            | ValueType::Int16 => true,
            _ => false,
        }
    }
}
