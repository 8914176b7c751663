//! Sums, differences, products and negations of buffers of one integer type, and negations of columns.
ghost use Rattle.std.specs.Prelude.{◌≡◌, ◌⊎◌, map, Some, None, IfOk, IfErr, neg_ℤ};
ghost use Rattle.px_base.specs.Answer.{GivesOrMemory, GivesOr};
ghost use Rattle.px_semantics.specs.Arithmetic.{arith_row, negate_rows};
ghost use Rattle.px_types.specs.Integers.{into, IsInteger};
ghost use Rattle.px_semantics.specs.Rows.{on_integer, elementwise};
ghost use Rattle.px_column.specs.ColumnOf.{type_of, rows_of};
ghost use Rattle.px_column.specs.Buffers.{values_of};
ghost use Rattle.px_kernels.specs.OperandTypes.{IsRing, IsSigned};

use crate::arms::integers;
use px_arrays::IntegerArray;
use px_column::{Buffer, Column};
use px_integers::{Difference, Integer, Product, Sum};
use px_types::{Operator, PlanError};
use std::alloc::{AllocError, Global};

/// Row by row the sum, the difference or the product. One row goes with each row of the other.
fn ring_integers<T: Integer>(
    alloc: Global,
    op: Operator,
    a: &IntegerArray<T>,
    b: &IntegerArray<T>,
) -> Result<IntegerArray<T>, PlanError>
    requires { IsRing op }
    ensures rows { GivesOr PlanError.ShapeMismatch (λ r. r) result
        (elementwise (arith_row op T.value_type) a.now b.now) }
{
    match op {
        Operator::Plus => a.combine::<Sum>(alloc, b),
        Operator::Minus => a.combine::<Difference>(alloc, b),
        Operator::Multiply => a.combine::<Product>(alloc, b),
        _ => unreachable!(),
    }
}

/// Row by row the sum, the difference or the product of two buffers of one integer type.
pub fn ring_buffers(
    alloc: Global,
    op: Operator,
    a: &Buffer,
    b: &Buffer,
) -> Result<Buffer, PlanError>
    requires ring { IsRing op }
    requires integer { IsInteger (type_of a.now) }
    requires same { type_of a.now ≡ type_of b.now }
    ensures value_type { IfOk result (λ r. type_of r ≡ type_of a.now) }
    ensures rows { GivesOr PlanError.ShapeMismatch (λ r. rows_of r) result
        (elementwise (arith_row op (type_of a.now)) (rows_of a.now) (rows_of b.now)) }
{
    integers!((a, b) {} => Buffer ring_integers(alloc, op, a, b))
}

/// The negated number, taken into the type.
fn negated<T: Integer>(x: T) -> T
    ensures { T.integer result ≡ into T.value_type (neg_ℤ (T.integer x)) }
{
    T::zero().minus(x)
}

/// Place by place the negated number, taken into the type.
fn negated_values<T: Integer>(alloc: Global, values: &[T]) -> Result<Vec<T>, AllocError>
    ensures { IfOk result (λ v. map T.integer v.items
        ≡ map (λ z. into T.value_type (neg_ℤ z)) (map T.integer values.now)) }
{
    values.iter().map(|x| negated(*x)).collect(alloc)
}

/// Row by row the negated number, taken into the type.
fn negated_integers<T: Integer>(
    alloc: Global,
    a: &IntegerArray<T>,
) -> Result<IntegerArray<T>, AllocError>
    ensures { IfOk result (λ r. r ≡ map (on_integer (λ z. into T.value_type (neg_ℤ z))) a.now) }
{
    let valid = a.valid().try_clone(alloc)?;
    let values = negated_values(alloc, a.values())?;
    Ok(IntegerArray::from_parts(values, valid))
}

/// Row by row the negated number of a buffer of a signed integer type, taken into the type, null kept:
/// the negation of the least number is itself.
pub fn negate_buffer(alloc: Global, a: &Buffer) -> Result<Buffer, PlanError>
    requires { IsSigned (type_of a.now) }
    ensures rows { IfOk result (λ c. values_of c ≡ negate_rows (values_of a.now)) }
    ensures err { IfErr result (λ e. e ≡ PlanError.OutOfMemory) }
{
    match a {
        Buffer::Int8(rows) => Ok(Buffer::Int8(negated_integers(alloc, rows)?)),
        Buffer::Int16(rows) => Ok(Buffer::Int16(negated_integers(alloc, rows)?)),
        Buffer::Int32(rows) => Ok(Buffer::Int32(negated_integers(alloc, rows)?)),
        Buffer::Int64(rows) => Ok(Buffer::Int64(negated_integers(alloc, rows)?)),
        _ => unreachable!(),
    }
}

/// The same of a column, under its name.
pub fn negate(alloc: Global, a: &Column) -> Result<Column, PlanError>
    requires { IsSigned a.now.values.value_type }
    ensures { GivesOrMemory result (record { name = a.now.name; values = negate_rows a.now.values }) }
{
    let buffer = negate_buffer(alloc, a.buffer())?;
    let name = a.name().try_clone(alloc)?;
    Ok(Column::new(name, buffer))
}
