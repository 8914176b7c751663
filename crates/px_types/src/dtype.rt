//! The types of values, and the fields that have them.
ghost use Rattle.std.specs.Prelude.{◌≡◌, IfSome};
ghost use Rattle.px_types.specs.ValueTypes.{value_type_of, dtype_of};

use crate::type_parts::{TimeUnit, UnknownKind};
use crate::value_type::ValueType;
use px_base::{Boxed, List, SmallStr};

/// A type of values, with the names of Polars. Columns have only those that `value_type` answers;
/// the other ones are names in the answers about types.
#[cycle(dtype)]
#[derive(Drop)]
pub enum DataType {
    Null,
    Boolean,
    String,
    Binary,
    UInt8,
    UInt16,
    UInt32,
    UInt64,
    Int8,
    Int16,
    Int32,
    Int64,
    Int128,
    Float32,
    Float64,
    Date,
    Time,
    /// A point in time, with the name of its time zone.
    Datetime(TimeUnit, Option<SmallStr>),
    /// A span of time.
    Duration(TimeUnit),
    Categorical,
    List(Boxed<DataType>),
    /// Lists of one width, which is their number of elements.
    Array(Boxed<DataType>, u64),
    Struct(FieldList),
    Unknown(UnknownKind),
}

/// A name with a type.
#[cycle(dtype)]
#[derive(Drop)]
pub struct Field {
    pub name: SmallStr,
    pub dtype: DataType,
}

/// A list of fields, in order.
pub type FieldList = List<Field>;

/// A list of types, in order.
pub type TypeList = List<DataType>;

impl DataType {
    /// The value type of the same name, and None where there is none.
    pub fn value_type(&self) -> Option<ValueType>
        ensures value { result ≡ value_type_of self.now }
        ensures same { IfSome result (λ value. dtype_of value ≡ self.now) }
    {
        match self {
            DataType::Null => Some(ValueType::Null),
            DataType::Boolean => Some(ValueType::Boolean),
            DataType::String => Some(ValueType::String),
            DataType::UInt8 => Some(ValueType::UInt8),
            DataType::UInt16 => Some(ValueType::UInt16),
            DataType::UInt32 => Some(ValueType::UInt32),
            DataType::UInt64 => Some(ValueType::UInt64),
            DataType::Int8 => Some(ValueType::Int8),
            DataType::Int16 => Some(ValueType::Int16),
            DataType::Int32 => Some(ValueType::Int32),
            DataType::Int64 => Some(ValueType::Int64),
            _ => None,
        }
    }
}

impl Field {
    /// The field of this name and this type.
    pub fn new(name: SmallStr, dtype: DataType) -> Field
        ensures { result ≡ record { name = name; dtype = dtype } }
    {
        Field { name, dtype }
    }

    /// The name.
    pub fn name(&self) -> &SmallStr
        ensures { result.now ≡ self.now.name }
    {
        &self.name
    }

    /// The type.
    pub fn dtype(&self) -> &DataType
        ensures { result.now ≡ self.now.dtype }
    {
        &self.dtype
    }

    /// Takes another type, and keeps the name.
    pub fn coerce(&mut self, dtype: DataType)
        ensures { self.new ≡ record self.old { dtype = dtype } }
    {
        self.dtype = dtype;
    }
}
