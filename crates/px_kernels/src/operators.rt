//! The six operators of arithmetic on buffers and columns of one integer type.
ghost use Rattle.std.specs.Prelude.{◌≡◌, ◌⊎◌, length, map, is_some, Some, None, IfOk, IfErr};
ghost use Rattle.px_base.specs.Answer.{GivesOr};
ghost use Rattle.std.specs.Simd.Lanes.{zip2};
ghost use Rattle.px_semantics.specs.Arithmetic.{arith_rows, lift_nonzero, nonzero_row, IsArithmetic};
ghost use Rattle.px_types.specs.Integers.{IsInteger};
ghost use Rattle.px_semantics.specs.Rows.{elementwise};
ghost use Rattle.px_column.specs.ColumnOf.{type_of, rows_of};
ghost use Rattle.px_column.specs.Buffers.{values_of};
ghost use Rattle.px_integers.specs.Quotients.{quotient_of, remainder_of};

use crate::arithmetic::ring_buffers;
use crate::arms::integers;
use crate::zeros::nonzero_flags;
use px_arrays::{Bitmap, IntegerArray};
use px_column::{Buffer, Column};
use px_integers::{Integer, Operation, Quotient, Remainder};
use px_types::{Operator, PlanError};
use std::alloc::{AllocError, Global};

/// Which rows are numbers other than 0.
fn nonzero_places<T: Integer>(alloc: Global, rows: &IntegerArray<T>) -> Result<Bitmap, AllocError>
    ensures { IfOk result (λ b. b ≡ map is_some (map nonzero_row rows.now)) }
{
    let flags = nonzero_flags(alloc, rows.values())?;
    prove!(flags.len() == rows.len());
    let places = Bitmap::from_bools(alloc, flags.as_slice())?;
    rows.valid().and(alloc, &places)
}

/// Place by place the operation. The shorter list ends it.
fn divided_values<T: Integer, O: Operation<T>>(
    alloc: Global,
    a: &[T],
    b: &[T],
) -> Result<Vec<T>, AllocError>
    ensures { IfOk result (λ v. map T.integer v.items ≡ zip2 O.meaning (map T.integer a.now) (map T.integer b.now)) }
{
    a.iter()
        .zip(b)
        .map(|(x, y)| O::apply(*x, *y))
        .collect(alloc)
}

/// Row by row the operation on as many rows, null where one is null or the second is 0.
fn divided_elementwise<T: Integer, O: Operation<T>>(
    alloc: Global,
    a: &IntegerArray<T>,
    b: &IntegerArray<T>,
) -> Result<IntegerArray<T>, AllocError>
    requires { length a.now ≡ length b.now }
    ensures { IfOk result (λ r. r ≡ zip2 (lift_nonzero O.meaning) a.now b.now) }
{
    let places = nonzero_places(alloc, b)?;
    let valid = a.valid().and(alloc, &places)?;
    let values = divided_values::<T, O>(alloc, a.values(), b.values())?;
    Ok(IntegerArray::from_parts(values, valid))
}

/// The one row, null where it is 0.
fn nonzero<T: Integer>(alloc: Global, row: &IntegerArray<T>) -> Result<IntegerArray<T>, AllocError>
    requires { length row.now ≡ 1 }
    ensures { IfOk result (λ r. r ≡ map nonzero_row row.now) }
{
    let valid = nonzero_places(alloc, row)?;
    let values = Vec::from_slice(alloc, row.values())?;
    Ok(IntegerArray::from_parts(values, valid))
}

/// Row by row the operation, null where one is null or the second is 0. One row goes with each row of
/// the other side.
fn divided<T: Integer, O: Operation<T>>(
    alloc: Global,
    a: &IntegerArray<T>,
    b: &IntegerArray<T>,
) -> Result<IntegerArray<T>, PlanError>
    ensures rows { GivesOr PlanError.ShapeMismatch (λ r. r) result
        (elementwise (lift_nonzero O.meaning) a.now b.now) }
{
    let m = a.len();
    let n = b.len();
    if n == 1 {
        let divisor = nonzero(alloc, b)?;
        return a.combine::<O>(alloc, &divisor);
    }
    if m == n {
        return Ok(divided_elementwise::<T, O>(alloc, a, b)?);
    }
    if m == 1 {
        let wide = a.repeated(alloc, n)?;
        return Ok(divided_elementwise::<T, O>(alloc, &wide, b)?);
    }
    Err(PlanError::ShapeMismatch)
}

/// Row by row the floor quotient, taken into the type, of two buffers of one integer type.
fn quotient_buffers(alloc: Global, a: &Buffer, b: &Buffer) -> Result<Buffer, PlanError>
    requires integer { IsInteger (type_of a.now) }
    requires same { type_of a.now ≡ type_of b.now }
    ensures value_type { IfOk result (λ r. type_of r ≡ type_of a.now) }
    ensures rows { GivesOr PlanError.ShapeMismatch (λ r. rows_of r) result
        (elementwise (lift_nonzero (quotient_of (type_of a.now))) (rows_of a.now) (rows_of b.now)) }
{
    integers!((a, b) {} => Buffer divided::<_, Quotient>(alloc, a, b))
}

/// Row by row the remainder of floor division.
fn remainder_buffers(alloc: Global, a: &Buffer, b: &Buffer) -> Result<Buffer, PlanError>
    requires integer { IsInteger (type_of a.now) }
    requires same { type_of a.now ≡ type_of b.now }
    ensures value_type { IfOk result (λ r. type_of r ≡ type_of a.now) }
    ensures rows { GivesOr PlanError.ShapeMismatch (λ r. rows_of r) result
        (elementwise (lift_nonzero remainder_of) (rows_of a.now) (rows_of b.now)) }
{
    integers!((a, b) {} => Buffer divided::<_, Remainder>(alloc, a, b))
}

/// Row by row one of the six operators of arithmetic on two buffers of one integer type. Sums, differences
/// and products are taken into the type. `Divide` and `FloorDivide` give the floor quotient, taken into the
/// type, `Modulus` its remainder. A row is null where one is null, and for the three divisions where the
/// divisor is 0. A buffer of one row goes with each row of the other. `ShapeMismatch` where the
/// lengths do not broadcast.
pub fn arith_buffers(
    alloc: Global,
    op: Operator,
    a: &Buffer,
    b: &Buffer,
) -> Result<Buffer, PlanError>
    requires arithmetic { IsArithmetic op }
    requires integer { IsInteger (type_of a.now) }
    requires same { type_of a.now ≡ type_of b.now }
    ensures rows { GivesOr PlanError.ShapeMismatch (λ c. values_of c) result
        (arith_rows op (values_of a.now) (values_of b.now)) }
{
    match op {
        Operator::Plus => ring_buffers(alloc, op, a, b),
        Operator::Minus => ring_buffers(alloc, op, a, b),
        Operator::Multiply => ring_buffers(alloc, op, a, b),
        Operator::Divide => quotient_buffers(alloc, a, b),
        Operator::FloorDivide => quotient_buffers(alloc, a, b),
        Operator::Modulus => remainder_buffers(alloc, a, b),
        _ => unreachable!(),
    }
}

/// The same of two columns, under the name of the first.
pub fn arith(alloc: Global, op: Operator, a: &Column, b: &Column) -> Result<Column, PlanError>
    requires arithmetic { IsArithmetic op }
    requires integer { IsInteger a.now.values.value_type }
    requires same { a.now.values.value_type ≡ b.now.values.value_type }
    ensures name { IfOk result (λ c. c.name ≡ a.now.name) }
    ensures rows { GivesOr PlanError.ShapeMismatch (λ c. c.values) result
        (arith_rows op a.now.values b.now.values) }
{
    let buffer = arith_buffers(alloc, op, a.buffer(), b.buffer())?;
    let name = a.name().try_clone(alloc)?;
    Ok(Column::new(name, buffer))
}
