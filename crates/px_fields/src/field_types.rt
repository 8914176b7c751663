//! Types that are made from the types of fields.
ghost use Rattle.std.specs.Prelude.{◌≡◌, Some};
ghost use Rattle.px_base.specs.Answer.{GivesOr, GivesOrMemory};
ghost use Rattle.px_base.specs.declared.error.PlanError.TheVariants.{InvalidOperation};
ghost use Rattle.px_types.specs.Supertypes.{common_type};
ghost use Rattle.px_fields.specs.FieldTypes.{element_or_unknown, sum_of, counted, common_of_fields, supertype, list_supertype, replaced};

use crate::type_changes::{concrete, inner_of, or_copy, wider_sum};
use px_base::{PlanError, boxed};
use px_types::{DataType, Field, UnknownKind, try_get_supertype};
use std::alloc::Global;

// The type of the elements of a list or an array, else an unknown one.
pub(crate) fn element_or_unknown(alloc: Global, dtype: &DataType) -> Result<DataType, PlanError>
    ensures { GivesOrMemory result (element_or_unknown dtype.now) }
{
    match inner_of(dtype) {
        Some(inner) => Ok(inner.try_clone(alloc)?),
        None => Ok(DataType::Unknown(UnknownKind::Any)),
    }
}

// The type of a sum.
pub(crate) fn sum_of(alloc: Global, dtype: &DataType) -> Result<DataType, PlanError>
    ensures { GivesOrMemory result (sum_of dtype.now) }
{
    or_copy(alloc, wider_sum(dtype), dtype)
}

// A type, or what a list of it counts as.
fn counted(by_elements: bool, dtype: &DataType) -> &DataType
    ensures { result.now ≡ counted by_elements dtype.now }
{
    match dtype {
        DataType::List(inner) if by_elements => inner.get(),
        _ => dtype,
    }
}

// The common type of two types.
fn common_type(alloc: Global, a: &DataType, b: &DataType) -> Result<DataType, PlanError>
    ensures { GivesOr InvalidOperation (λ dtype. dtype) result (common_type a.now b.now) }
{
    try_get_supertype(alloc, a, b)
}

// The common type of all fields, from left to right.
fn common_of_fields(
    alloc: Global,
    by_elements: bool,
    fields: &[Field],
) -> Result<DataType, PlanError>
    ensures { GivesOr InvalidOperation (λ dtype. dtype) result (common_of_fields by_elements fields.now) }
{
    match fields {
        [] => Err(PlanError::InvalidOperation),
        [first, others @ ..] => {
            let mut common = counted(by_elements, &first.dtype).try_clone(alloc)?;
            for field in others {
                common = common_type(alloc, &common, counted(by_elements, &field.dtype))?;
            }
            Ok(common)
        }
    }
}

// The common type of all fields, and no unknown one where a literal tells a type.
pub(crate) fn supertype(alloc: Global, fields: &[Field]) -> Result<DataType, PlanError>
    ensures { GivesOr InvalidOperation (λ dtype. dtype) result (supertype fields.now) }
{
    match concrete(common_of_fields(alloc, false, fields)?) {
        Some(dtype) => Ok(dtype),
        None => Err(PlanError::InvalidOperation),
    }
}

// The list of the common type of all elements.
pub(crate) fn list_supertype(alloc: Global, fields: &[Field]) -> Result<DataType, PlanError>
    ensures { GivesOr InvalidOperation (λ dtype. dtype) result (list_supertype fields.now) }
{
    let element = common_of_fields(alloc, true, fields)?;
    Ok(DataType::List(boxed(alloc, element)?))
}

// The type that is given, else that of the third field, or its common type with the fourth field's.
pub(crate) fn replaced(
    alloc: Global,
    given: Option<DataType>,
    fields: &[Field],
) -> Result<DataType, PlanError>
    ensures { GivesOr InvalidOperation (λ dtype. dtype) result (replaced given fields.now) }
{
    if let Some(dtype) = given {
        return Ok(dtype);
    }
    match (fields.get(2), fields.get(3)) {
        (Some(new), Some(other)) => common_type(alloc, &new.dtype, &other.dtype),
        (Some(new), None) => Ok(new.dtype.try_clone(alloc)?),
        _ => Err(PlanError::InvalidOperation),
    }
}
