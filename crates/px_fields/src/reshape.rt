//! The type of rows in another shape.
ghost use Rattle.std.specs.Prelude.{◌≡◌, count_by};
ghost use Rattle.px_base.specs.Answer.{GivesOr, GivesOrMemory};
ghost use Rattle.px_base.specs.declared.error.PlanError.TheVariants.{InvalidOperation};
ghost use Rattle.px_fields.specs.TypeChanges.{total_width, leaf};
ghost use Rattle.px_fields.specs.Reshape.{is_inferred, specified_product, in_u64, divisor, inferred_size, arrays_of, reshaped};

use crate::type_changes::{inner_of, leaf};
use px_base::{PlanError, boxed};
use px_functions::ReshapeDimension;
use px_types::DataType;
use std::alloc::Global;

fn is_inferred(dimension: &ReshapeDimension) -> bool
    ensures { result ≡ is_inferred dimension.now }
{
    matches!(dimension, ReshapeDimension::Infer)
}

// The product of the widths of arrays of arrays, and None past u64.
fn total_width(dtype: &DataType) -> Option<u64>
    ensures { result ≡ in_u64 (total_width dtype.now) }
{
    match dtype {
        DataType::Array(inner, width) => {
            if *width == 0 {
                return Some(0);
            }
            total_width(inner.get())?.checked_mul(*width)
        }
        _ => Some(1),
    }
}

// The product of the specified sizes, and None where it is zero or past u64.
fn specified_product(dimensions: &[ReshapeDimension]) -> Option<u64>
    ensures { result ≡ divisor (specified_product dimensions.now) }
{
    let mut product = 1u64;
    for dimension in dimensions {
        let size = dimension.get_or_infer(1);
        if size == 0 {
            return None;
        }
        product = product.checked_mul(size)?;
    }
    Some(product)
}

// The size of the dimension that is inferred, and 0 where none is.
fn inferred_size(dimensions: &[ReshapeDimension], dtype: &DataType) -> Option<u64>
    ensures { result ≡ inferred_size dimensions.now dtype.now (count_by is_inferred dimensions.now) }
{
    match dimensions
        .iter()
        .filter(|dimension| is_inferred(*dimension))
        .count()
    {
        0 => Some(0),
        1 => {
            let width = total_width(dtype)?;
            Some(width / specified_product(dimensions)?)
        }
        _ => None,
    }
}

// Arrays of arrays of the type.
fn arrays_of(
    alloc: Global,
    element: &DataType,
    inferred: u64,
    dimensions: &[ReshapeDimension],
) -> Result<DataType, PlanError>
    ensures { GivesOrMemory result (arrays_of element.now inferred dimensions.now) }
{
    let mut arrays = element.try_clone(alloc)?;
    for dimension in dimensions {
        arrays = DataType::Array(boxed(alloc, arrays)?, dimension.get_or_infer(inferred));
    }
    Ok(arrays)
}

// The type of rows in this shape.
pub(crate) fn reshaped(
    alloc: Global,
    dimensions: &[ReshapeDimension],
    dtype: &DataType,
) -> Result<DataType, PlanError>
    ensures { GivesOr InvalidOperation (λ reshaped. reshaped) result (reshaped dimensions.now dtype.now) }
{
    match dimensions {
        [] => Err(PlanError::InvalidOperation),
        [_] => Ok(inner_of(dtype).unwrap_or(dtype).try_clone(alloc)?),
        [_, inner @ ..] => match inferred_size(dimensions, dtype) {
            Some(size) => Ok(arrays_of(alloc, leaf(dtype), size, inner)?),
            None => Err(PlanError::InvalidOperation),
        },
    }
}
