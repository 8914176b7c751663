//! Types, fields and options for the tests, and types as texts.

use px_base::{List, PlanError, SmallStr, boxed};
use px_functions::{BoolList, DimensionList, RankMethod, RankOptions, ReshapeDimension};
use px_types::{DataType, Field, FieldList, TimeUnit, UnknownKind};
use std::alloc::Global;

static NAMES: [&str; 4] = ["a", "b", "c", "d"];

// The fields of these types, named a to d.
pub(crate) fn fields<const N: usize>(
    alloc: Global,
    dtypes: [DataType; N],
) -> Result<FieldList, PlanError> {
    let mut fields = List::new(alloc);
    for dtype in Vec::from_array(alloc, dtypes)? {
        let name = match NAMES.get(fields.len()) {
            Some(name) => SmallStr::new(alloc, name)?,
            None => SmallStr::new(alloc, "e")?,
        };
        fields.try_push(Field::new(name, dtype))?;
    }
    Ok(fields)
}

pub(crate) fn datetime(alloc: Global) -> Result<DataType, PlanError> {
    let zone = SmallStr::new(alloc, "UTC")?;
    Ok(DataType::Datetime(TimeUnit::Microseconds, Some(zone)))
}

pub(crate) fn list(alloc: Global, inner: DataType) -> Result<DataType, PlanError> {
    Ok(DataType::List(boxed(alloc, inner)?))
}

pub(crate) fn array(alloc: Global, inner: DataType, width: u64) -> Result<DataType, PlanError> {
    Ok(DataType::Array(boxed(alloc, inner)?, width))
}

pub(crate) fn shape(alloc: Global, sizes: &[i64]) -> Result<DimensionList, PlanError> {
    let mut shape = List::new(alloc);
    for size in sizes {
        shape.try_push(ReshapeDimension::new(*size))?;
    }
    Ok(shape)
}

pub(crate) fn flags(alloc: Global) -> Result<BoolList, PlanError> {
    let mut flags = List::new(alloc);
    flags.try_push(true)?;
    Ok(flags)
}

pub(crate) fn rank(method: RankMethod) -> RankOptions {
    RankOptions {
        method,
        descending: false,
    }
}

// The name of a type that holds nothing.
fn name_of(dtype: &DataType) -> &'static str {
    match dtype {
        DataType::Null => "Null",
        DataType::Boolean => "Boolean",
        DataType::String => "String",
        DataType::Binary => "Binary",
        DataType::UInt8 => "UInt8",
        DataType::UInt16 => "UInt16",
        DataType::UInt32 => "UInt32",
        DataType::UInt64 => "UInt64",
        DataType::Int8 => "Int8",
        DataType::Int16 => "Int16",
        DataType::Int32 => "Int32",
        DataType::Int64 => "Int64",
        DataType::Int128 => "Int128",
        DataType::Float32 => "Float32",
        DataType::Float64 => "Float64",
        DataType::Date => "Date",
        DataType::Time => "Time",
        DataType::Categorical => "Categorical",
        DataType::Unknown(UnknownKind::Any) => "Unknown(Any)",
        DataType::Unknown(UnknownKind::Float) => "Unknown(Float)",
        DataType::Unknown(UnknownKind::Str) => "Unknown(Str)",
        _ => "",
    }
}

fn unit_text(unit: TimeUnit) -> &'static str {
    match unit {
        TimeUnit::Nanoseconds => "ns",
        TimeUnit::Microseconds => "us",
        TimeUnit::Milliseconds => "ms",
    }
}

// The type as a text.
#[cycle(text)]
pub(crate) fn text_of(alloc: Global, dtype: &DataType) -> Result<String, PlanError> {
    match dtype {
        DataType::Datetime(unit, zone) => {
            let zone = match zone {
                Some(zone) => zone.as_str(),
                None => "None",
            };
            Ok(format!(in alloc; "Datetime({}, {})", unit_text(*unit), zone)?)
        }
        DataType::Duration(unit) => Ok(format!(in alloc; "Duration({})", unit_text(*unit))?),
        DataType::List(inner) => {
            let inner = text_of(alloc, inner.get())?;
            Ok(format!(in alloc; "List({})", inner.as_str())?)
        }
        DataType::Array(inner, width) => {
            let inner = text_of(alloc, inner.get())?;
            Ok(format!(in alloc; "Array({}, {})", inner.as_str(), *width)?)
        }
        DataType::Struct(fields) => fields_text(alloc, fields),
        DataType::Unknown(UnknownKind::Int(v)) => Ok(format!(in alloc; "Unknown(Int, {})", *v)?),
        _ => Ok(String::from_str(alloc, name_of(dtype))?),
    }
}

#[cycle(text)]
fn fields_text(alloc: Global, fields: &FieldList) -> Result<String, PlanError> {
    let mut text = String::from_str(alloc, "Struct(")?;
    let mut is_first = true;
    for field in fields.as_slice() {
        if !is_first {
            text.push_str(", ")?;
        }
        text.push_str(field.name.as_str())?;
        text.push_str(": ")?;
        text.push_str(text_of(alloc, &field.dtype)?.as_str())?;
        is_first = false;
    }
    text.push_str(")")?;
    Ok(text)
}
