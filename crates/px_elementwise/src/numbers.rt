//! The absolute value and the sign of integers.
ghost use Rattle.std.specs.Prelude.{◌≡◌, pos, unsigned_abs, map, IfOk};
ghost use Rattle.px_base.specs.Answer.{GivesOrMemory, GivesSeen};
ghost use Rattle.px_types.specs.Integers.{into, IsInteger};
ghost use Rattle.px_semantics.specs.Bounds.{abs_rows, sign_of, sign_rows};
ghost use Rattle.px_semantics.specs.Rows.{on_integer};
ghost use Rattle.px_column.specs.ColumnOf.{type_of};
ghost use Rattle.px_column.specs.Buffers.{values_of};

use crate::arms::integers;
use px_arrays::IntegerArray;
use px_column::{Buffer, Column};
use px_integers::Integer;
use px_types::PlanError;
use std::alloc::{AllocError, Global};

/// The absolute value, taken into the type.
fn absolute<T: Integer>(x: T) -> T
    ensures { T.integer result ≡ into T.value_type (pos (unsigned_abs (T.integer x))) }
{
    let zero = T::zero();
    if x.is_less(zero) {
        zero.minus(x)
    } else {
        // The sum with 0 is the number, taken into the type.
        x.plus(zero)
    }
}

/// Place by place the absolute value, taken into the type.
fn absolute_values<T: Integer>(alloc: Global, values: &[T]) -> Result<Vec<T>, AllocError>
    ensures { IfOk result (λ v. map T.integer v.items
        ≡ map (λ z. into T.value_type (pos (unsigned_abs z))) (map T.integer values.now)) }
{
    values.iter().map(|x| absolute(*x)).collect(alloc)
}

/// Row by row the absolute value, taken into the type, null kept.
fn absolute_integers<T: Integer>(
    alloc: Global,
    a: &IntegerArray<T>,
) -> Result<IntegerArray<T>, AllocError>
    ensures { IfOk result (λ r. r
        ≡ map (on_integer (λ z. into T.value_type (pos (unsigned_abs z)))) a.now) }
{
    let valid = a.valid().try_clone(alloc)?;
    let values = absolute_values(alloc, a.values())?;
    Ok(IntegerArray::from_parts(values, valid))
}

/// 1 above 0, -1 below it, else 0.
fn sign_of<T: Integer>(x: T) -> i64
    ensures { result ≡ sign_of (T.integer x) }
{
    let zero = T::zero();
    if x.is_less(zero) {
        -1
    } else if zero.is_less(x) {
        1
    } else {
        0
    }
}

/// Place by place the sign.
fn sign_values<T: Integer>(alloc: Global, values: &[T]) -> Result<Vec<i64>, AllocError>
    ensures { IfOk result (λ v. v.items ≡ map sign_of (map T.integer values.now)) }
{
    values.iter().map(|x| sign_of(*x)).collect(alloc)
}

/// Row by row the sign, null kept.
fn sign_integers<T: Integer>(
    alloc: Global,
    a: &IntegerArray<T>,
) -> Result<IntegerArray<i64>, AllocError>
    ensures { IfOk result (λ r. r ≡ map (on_integer sign_of) a.now) }
{
    let valid = a.valid().try_clone(alloc)?;
    let values = sign_values(alloc, a.values())?;
    Ok(IntegerArray::from_parts(values, valid))
}

/// Row by row the absolute value of a buffer of an integer type, taken into the type, null kept: as many
/// rows of the type. That of the least number is itself, as in Polars. The only error is out of memory.
pub fn abs_buffer(alloc: Global, a: &Buffer) -> Result<Buffer, PlanError>
    requires { IsInteger (type_of a.now) }
    ensures { GivesSeen (λ c. values_of c) result (abs_rows (values_of a.now)) }
{
    integers!(a {} => Buffer absolute_integers(alloc, a))
}

/// The same of a column, under its name.
pub fn abs(alloc: Global, a: &Column) -> Result<Column, PlanError>
    requires { IsInteger a.now.values.value_type }
    ensures { GivesOrMemory result (record { name = a.now.name; values = abs_rows a.now.values }) }
{
    let buffer = abs_buffer(alloc, a.buffer())?;
    let name = a.name().try_clone(alloc)?;
    Ok(Column::new(name, buffer))
}

/// Row by row the sign of a buffer of an integer type, null kept: as many rows of the type `Int64`, 1 above
/// 0, -1 below it, else 0. The only error is out of memory. The type is our own.
pub fn sign_buffer(alloc: Global, a: &Buffer) -> Result<Buffer, PlanError>
    requires { IsInteger (type_of a.now) }
    ensures { GivesSeen (λ c. values_of c) result (sign_rows (values_of a.now)) }
{
    let rows = integers!(a {} => sign_integers(alloc, a))?;
    Ok(Buffer::Int64(rows))
}

/// The same of a column, under its name.
pub fn sign(alloc: Global, a: &Column) -> Result<Column, PlanError>
    requires { IsInteger a.now.values.value_type }
    ensures { GivesOrMemory result (record { name = a.now.name; values = sign_rows a.now.values }) }
{
    let buffer = sign_buffer(alloc, a.buffer())?;
    let name = a.name().try_clone(alloc)?;
    Ok(Column::new(name, buffer))
}
