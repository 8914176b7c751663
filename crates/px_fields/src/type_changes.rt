//! Types that are made from one type.
ghost use Rattle.std.specs.Prelude.{◌≡◌, map};
ghost use Rattle.std.specs.Option.{option_copied};
ghost use Rattle.px_base.specs.Answer.{GivesOrMemory, GivesSeen};
ghost use Rattle.px_fields.specs.TypeChanges.{or_type, inner_of, array_inner_of, float_of, numeric_as_float, wider_sum, wider_product, product_of, other_difference, smallest, known_type, concrete, physical, physical_field, leaf};

use px_base::{List, PlanError, boxed};
use px_types::{DataType, Field, FieldList, TimeUnit, UnknownKind, default_type};
use std::alloc::Global;

// The type that is found, else a copy of the type.
pub(crate) fn or_copy(
    alloc: Global,
    found: Option<DataType>,
    dtype: &DataType,
) -> Result<DataType, PlanError>
    ensures { GivesOrMemory result (or_type dtype.now found) }
{
    match found {
        Some(found) => Ok(found),
        None => Ok(dtype.try_clone(alloc)?),
    }
}

// The type of the elements of a list or an array.
pub(crate) fn inner_of(dtype: &DataType) -> Option<&DataType>
    ensures { option_copied result ≡ inner_of dtype.now }
{
    match dtype {
        DataType::List(inner) => Some(inner.get()),
        DataType::Array(inner, _) => Some(inner.get()),
        _ => None,
    }
}

// The type of the elements of an array.
pub(crate) fn array_inner_of(dtype: &DataType) -> Option<&DataType>
    ensures { option_copied result ≡ array_inner_of dtype.now }
{
    match dtype {
        DataType::Array(inner, _) => Some(inner.get()),
        _ => None,
    }
}

// The innermost type of elements.
pub(crate) fn leaf(dtype: &DataType) -> &DataType
    ensures { result.now ≡ leaf dtype.now }
{
    match dtype {
        DataType::List(inner) => leaf(inner.get()),
        DataType::Array(inner, _) => leaf(inner.get()),
        _ => dtype,
    }
}

pub(crate) fn float_of(dtype: &DataType) -> DataType
    ensures { result ≡ float_of dtype.now }
{
    match dtype {
        DataType::Float32 => DataType::Float32,
        _ => DataType::Float64,
    }
}

pub(crate) fn numeric_as_float(alloc: Global, dtype: &DataType) -> Result<DataType, PlanError>
    ensures { GivesOrMemory result (numeric_as_float dtype.now) }
{
    if dtype.is_primitive_numeric() {
        Ok(float_of(dtype))
    } else {
        Ok(dtype.try_clone(alloc)?)
    }
}

pub(crate) fn wider_sum(dtype: &DataType) -> Option<DataType>
    ensures { result ≡ wider_sum dtype.now }
{
    match dtype {
        DataType::Boolean => Some(DataType::UInt32),
        DataType::UInt8 | DataType::UInt16 | DataType::Int8 | DataType::Int16 => {
            Some(DataType::Int64)
        }
        _ => None,
    }
}

pub(crate) fn wider_product(dtype: &DataType) -> Option<DataType>
    ensures { result ≡ wider_product dtype.now }
{
    match dtype {
        DataType::Boolean | DataType::UInt8 | DataType::UInt16 | DataType::UInt32 => {
            Some(DataType::Int64)
        }
        DataType::Int8 | DataType::Int16 | DataType::Int32 | DataType::Int64 => {
            Some(DataType::Int64)
        }
        _ => None,
    }
}

pub(crate) fn product_of(dtype: &DataType) -> DataType
    ensures { result ≡ product_of dtype.now }
{
    match dtype {
        DataType::Float32 => DataType::Float32,
        DataType::Float64 => DataType::Float64,
        DataType::UInt64 => DataType::UInt64,
        DataType::Int128 => DataType::Int128,
        _ => DataType::Int64,
    }
}

pub(crate) fn other_difference(dtype: &DataType) -> Option<DataType>
    ensures { result ≡ other_difference dtype.now }
{
    match dtype {
        DataType::Datetime(unit, _) => Some(DataType::Duration(*unit)),
        DataType::Date => Some(DataType::Duration(TimeUnit::Milliseconds)),
        DataType::Time => Some(DataType::Duration(TimeUnit::Nanoseconds)),
        DataType::UInt64 | DataType::UInt32 => Some(DataType::Int64),
        DataType::UInt16 => Some(DataType::Int32),
        DataType::UInt8 => Some(DataType::Int16),
        _ => None,
    }
}

pub(crate) fn smallest(dtype: &DataType) -> Option<DataType>
    ensures { result ≡ smallest dtype.now }
{
    if dtype.is_float() {
        Some(DataType::Float32)
    } else if dtype.is_unsigned_integer() {
        Some(DataType::Int8)
    } else if dtype.is_integer() {
        Some(DataType::UInt8)
    } else {
        None
    }
}

fn known_type(unknown: UnknownKind) -> Option<DataType>
    ensures { result ≡ known_type unknown }
{
    match unknown {
        UnknownKind::Any => Some(DataType::Unknown(UnknownKind::Any)),
        UnknownKind::Int(v) => Some(default_type(v)?.dtype()),
        UnknownKind::Float => Some(DataType::Float64),
        UnknownKind::Str => Some(DataType::String),
    }
}

// The type, or what an unknown one becomes.
pub(crate) fn concrete(dtype: DataType) -> Option<DataType>
    ensures { result ≡ concrete dtype }
{
    match dtype {
        DataType::Unknown(unknown) => known_type(unknown),
        dtype => Some(dtype),
    }
}

// The type that values of a type are kept as.
#[cycle(physical)]
pub(crate) fn physical(alloc: Global, dtype: &DataType) -> Result<DataType, PlanError>
    ensures { GivesOrMemory result (physical dtype.now) }
{
    match dtype {
        DataType::Date => Ok(DataType::Int32),
        DataType::Time | DataType::Datetime(_, _) | DataType::Duration(_) => Ok(DataType::Int64),
        DataType::Categorical => Ok(DataType::UInt32),
        DataType::List(inner) => Ok(DataType::List(boxed(alloc, physical(alloc, inner.get())?)?)),
        DataType::Array(inner, width) => {
            Ok(DataType::Array(boxed(alloc, physical(alloc, inner.get())?)?, *width))
        }
        DataType::Struct(fields) => Ok(DataType::Struct(physical_fields(alloc, fields)?)),
        _ => Ok(dtype.try_clone(alloc)?),
    }
}

#[cycle(physical)]
fn physical_fields(alloc: Global, fields: &FieldList) -> Result<FieldList, PlanError>
    ensures { GivesSeen (λ kept. kept.entries) result (map physical_field fields.now.entries) }
{
    let mut kept = List::new(alloc);
    for field in fields.as_slice() {
        kept.try_push(physical_field(alloc, field)?)?;
    }
    Ok(kept)
}

#[cycle(physical)]
fn physical_field(alloc: Global, field: &Field) -> Result<Field, PlanError>
    ensures { GivesOrMemory result (physical_field field.now) }
{
    let name = field.name.try_clone(alloc)?;
    let dtype = physical(alloc, &field.dtype)?;
    Ok(Field { name, dtype })
}
