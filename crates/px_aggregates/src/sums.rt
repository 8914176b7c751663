//! Sums and products.
ghost use Rattle.std.specs.Prelude.{◌≡◌, ◌⊎◌, [], ◌∷◌, pos, Some};
ghost use Rattle.px_base.specs.Answer.{GivesOrMemory, GivesSeen};
ghost use Rattle.px_semantics.specs.Aggregates.{sum_of, product_of, numbers_of, total_of, whole_product_of};
ghost use Rattle.px_column.specs.Buffers.{values_of};
ghost use Rattle.px_column.specs.ColumnOf.{type_of};
ghost use Rattle.px_semantics.specs.Rows.{IsBoolean, IntegerValue};
ghost use Rattle.px_types.specs.Integers.{into, IsInteger};
ghost use Rattle.px_types.specs.declared.value_type.ValueType.TheVariants as value_type;

use crate::booleans::true_count;
use crate::folds::fold_valid;
use crate::one_row::{one_count, one_integer};
use px_arrays::{BooleanArray, IntegerArray};
use px_column::{Buffer, Column};
use px_integers::{Integer, Product, Residue, Sum};
use px_types::PlanError;
use std::alloc::Global;

/// The number of rows that are true, as the sum of all rows.
fn sum_booleans(rows: &BooleanArray) -> u32
    ensures { pos result ≡ into value_type.UInt32 (sum_of (numbers_of rows.now)) }
{
    prove!(rows.len() < 4294967296);
    true_count(rows)
}

/// The sum of the values in one row, taken into a type. The only error is out of memory.
fn sum_integers<T: Integer, A: Residue>(
    alloc: Global,
    rows: &IntegerArray<T>,
) -> Result<IntegerArray<A>, PlanError>
    ensures { GivesOrMemory result (Some (IntegerValue (into A.value_type (sum_of (numbers_of rows.now)))) ∷ []) }
{
    let total = fold_valid::<T, A, Sum>(A::residue(0), rows);
    one_integer(alloc, Some(total))
}

/// The product of the values in one row, taken into a type. The only error is out of memory.
fn multiply_integers<T: Integer, A: Residue>(
    alloc: Global,
    rows: &IntegerArray<T>,
) -> Result<IntegerArray<A>, PlanError>
    ensures { GivesOrMemory result (Some (IntegerValue (into A.value_type (product_of (numbers_of rows.now)))) ∷ []) }
{
    let product = fold_valid::<T, A, Product>(A::residue(1), rows);
    one_integer(alloc, Some(product))
}

/// The sum of a buffer of Booleans or of an integer type, in one row. A true counts 1. Nulls are skipped, and the
/// sum of nothing is 0. The sum of Booleans has the type `UInt32`, that of integers of 8 and 16 bits `Int64`, and
/// each other the type of the buffer, into which it wraps. The only error is out of memory. The types follow
/// those of Polars' `sum`.
pub fn sum_buffer(alloc: Global, a: &Buffer) -> Result<Buffer, PlanError>
    requires { IsBoolean (type_of a.now) ⊎ IsInteger (type_of a.now) }
    ensures { GivesSeen values_of result (total_of (values_of a.now)) }
{
    match a {
        Buffer::Boolean(rows) => one_count(alloc, sum_booleans(rows)),
        Buffer::Int8(rows) => Ok(Buffer::Int64(sum_integers(alloc, rows)?)),
        Buffer::Int16(rows) => Ok(Buffer::Int64(sum_integers(alloc, rows)?)),
        Buffer::Int32(rows) => Ok(Buffer::Int32(sum_integers(alloc, rows)?)),
        Buffer::Int64(rows) => Ok(Buffer::Int64(sum_integers(alloc, rows)?)),
        Buffer::UInt8(rows) => Ok(Buffer::Int64(sum_integers(alloc, rows)?)),
        Buffer::UInt16(rows) => Ok(Buffer::Int64(sum_integers(alloc, rows)?)),
        Buffer::UInt32(rows) => Ok(Buffer::UInt32(sum_integers(alloc, rows)?)),
        Buffer::UInt64(rows) => Ok(Buffer::UInt64(sum_integers(alloc, rows)?)),
        _ => unreachable!(),
    }
}

/// The same of a column, under its name.
pub fn sum(alloc: Global, a: &Column) -> Result<Column, PlanError>
    requires { IsBoolean a.now.values.value_type ⊎ IsInteger a.now.values.value_type }
    ensures { GivesOrMemory result (record { name = a.now.name; values = total_of a.now.values }) }
{
    let buffer = sum_buffer(alloc, a.buffer())?;
    let name = a.name().try_clone(alloc)?;
    Ok(Column::new(name, buffer))
}

/// The product of a buffer of an integer type, in one row. Nulls are skipped, and the product of nothing is 1. It
/// has the type `UInt64` where the buffer has it, else `Int64`, into which it wraps. The only error is out of
/// memory. The types follow those of Polars' `product`.
pub fn product_buffer(alloc: Global, a: &Buffer) -> Result<Buffer, PlanError>
    requires { IsInteger (type_of a.now) }
    ensures { GivesSeen values_of result (whole_product_of (values_of a.now)) }
{
    match a {
        Buffer::Int8(rows) => Ok(Buffer::Int64(multiply_integers(alloc, rows)?)),
        Buffer::Int16(rows) => Ok(Buffer::Int64(multiply_integers(alloc, rows)?)),
        Buffer::Int32(rows) => Ok(Buffer::Int64(multiply_integers(alloc, rows)?)),
        Buffer::Int64(rows) => Ok(Buffer::Int64(multiply_integers(alloc, rows)?)),
        Buffer::UInt8(rows) => Ok(Buffer::Int64(multiply_integers(alloc, rows)?)),
        Buffer::UInt16(rows) => Ok(Buffer::Int64(multiply_integers(alloc, rows)?)),
        Buffer::UInt32(rows) => Ok(Buffer::Int64(multiply_integers(alloc, rows)?)),
        Buffer::UInt64(rows) => Ok(Buffer::UInt64(multiply_integers(alloc, rows)?)),
        _ => unreachable!(),
    }
}

/// The same of a column, under its name.
pub fn product(alloc: Global, a: &Column) -> Result<Column, PlanError>
    requires { IsInteger a.now.values.value_type }
    ensures { GivesOrMemory result (record { name = a.now.name; values = whole_product_of a.now.values }) }
{
    let buffer = product_buffer(alloc, a.buffer())?;
    let name = a.name().try_clone(alloc)?;
    Ok(Column::new(name, buffer))
}
