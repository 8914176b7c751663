//! Copies of types, which take memory.
ghost use Rattle.px_base.specs.Answer.{GivesOrMemory};

use crate::dtype::{DataType, Field, FieldList};
use px_base::{Boxed, List, PlanError, SmallStr, TryClone, boxed};
use std::alloc::Global;

#[cycle(duplicate)]
fn clone_dtype(alloc: Global, dtype: &DataType) -> Result<DataType, PlanError>
    ensures { GivesOrMemory result dtype.now }
{
    match dtype {
        DataType::Null => Ok(DataType::Null),
        DataType::Boolean => Ok(DataType::Boolean),
        DataType::String => Ok(DataType::String),
        DataType::Binary => Ok(DataType::Binary),
        DataType::UInt8 => Ok(DataType::UInt8),
        DataType::UInt16 => Ok(DataType::UInt16),
        DataType::UInt32 => Ok(DataType::UInt32),
        DataType::UInt64 => Ok(DataType::UInt64),
        DataType::Int8 => Ok(DataType::Int8),
        DataType::Int16 => Ok(DataType::Int16),
        DataType::Int32 => Ok(DataType::Int32),
        DataType::Int64 => Ok(DataType::Int64),
        DataType::Int128 => Ok(DataType::Int128),
        DataType::Float32 => Ok(DataType::Float32),
        DataType::Float64 => Ok(DataType::Float64),
        DataType::Date => Ok(DataType::Date),
        DataType::Time => Ok(DataType::Time),
        DataType::Datetime(unit, zone) => Ok(DataType::Datetime(*unit, clone_zone(alloc, zone)?)),
        DataType::Duration(unit) => Ok(DataType::Duration(*unit)),
        DataType::Categorical => Ok(DataType::Categorical),
        DataType::List(inner) => Ok(DataType::List(clone_boxed(alloc, inner)?)),
        DataType::Array(inner, width) => Ok(DataType::Array(clone_boxed(alloc, inner)?, *width)),
        DataType::Struct(fields) => Ok(DataType::Struct(clone_fields(alloc, fields)?)),
        DataType::Unknown(value_type) => Ok(DataType::Unknown(*value_type)),
    }
}

fn clone_zone(alloc: Global, zone: &Option<SmallStr>) -> Result<Option<SmallStr>, PlanError>
    ensures { GivesOrMemory result zone.now }
{
    match zone {
        None => Ok(None),
        Some(name) => Ok(Some(name.try_clone(alloc)?)),
    }
}

#[cycle(duplicate)]
fn clone_boxed(alloc: Global, inner: &Boxed<DataType>) -> Result<Boxed<DataType>, PlanError>
    ensures { GivesOrMemory result inner.now }
{
    boxed(alloc, clone_dtype(alloc, inner.get())?)
}

#[cycle(duplicate)]
fn clone_field(alloc: Global, field: &Field) -> Result<Field, PlanError>
    ensures { GivesOrMemory result field.now }
{
    let name = field.name.try_clone(alloc)?;
    let dtype = clone_dtype(alloc, &field.dtype)?;
    Ok(Field { name, dtype })
}

#[cycle(duplicate)]
fn clone_fields(alloc: Global, fields: &FieldList) -> Result<FieldList, PlanError>
    ensures { GivesOrMemory result fields.now }
{
    let mut cloned = List::new(alloc);
    for field in fields.as_slice() {
        cloned.try_push(clone_field(alloc, field)?)?;
    }
    Ok(cloned)
}

impl DataType {
    /// An equal type. The only error is out of memory.
    pub fn try_clone(&self, alloc: Global) -> Result<DataType, PlanError>
        ensures { GivesOrMemory result self.now }
    {
        clone_dtype(alloc, self)
    }
}

impl Field {
    /// An equal field. The only error is out of memory.
    pub fn try_clone(&self, alloc: Global) -> Result<Field, PlanError>
        ensures { GivesOrMemory result self.now }
    {
        clone_field(alloc, self)
    }
}

impl TryClone for DataType {
    fn try_clone_in(&self, alloc: Global) -> Result<DataType, PlanError> {
        self.try_clone(alloc)
    }
}

impl TryClone for Field {
    fn try_clone_in(&self, alloc: Global) -> Result<Field, PlanError> {
        self.try_clone(alloc)
    }
}
