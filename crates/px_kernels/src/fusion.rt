//! A product and a sum or a difference in one step, on buffers and columns of one integer type.
ghost use Rattle.std.specs.Prelude.{◌≡◌, ◌⊎◌, length, map, is_some, Some, None, IfOk, IfErr};
ghost use Rattle.px_base.specs.Answer.{GivesOr};
ghost use Rattle.px_semantics.specs.Fused.{fused, fused_row, fused_rows, zip3, elementwise_three};
ghost use Rattle.px_types.specs.Integers.{into, IsInteger};
ghost use Rattle.px_types.specs.declared.function.FusedOperator.{FusedOperator};
ghost use Rattle.px_types.specs.declared.function.FusedOperator.TheVariants as form;
ghost use Rattle.px_column.specs.ColumnOf.{type_of, rows_of};
ghost use Rattle.px_column.specs.Buffers.{values_of};
ghost use Rattle.px_kernels.specs.FusedPlaces.{all_valid, fused_places};

use crate::arithmetic::ring_buffers;
use crate::arms::integers;
use px_arrays::{Bitmap, IntegerArray};
use px_column::{Buffer, Column};
use px_integers::Integer;
use px_types::{FusedOperator, Operator, PlanError};
use std::alloc::{AllocError, Global};

/// A form of three numbers of a type, taken into the type.
trait Form<T: Integer> {
    ghost form: { FusedOperator };

    fn apply(x: T, y: T, z: T) -> T
        ensures { T.integer result ≡ into T.value_type (fused form (T.integer x) (T.integer y) (T.integer z)) };
}

/// `x + y * z`.
struct PlusProduct;

/// `x - y * z`.
struct MinusProduct;

/// `x * y - z`.
struct ProductMinus;

impl<T: Integer> Form<T> for PlusProduct {
    ghost form = { form.MultiplyAdd };

    fn apply(x: T, y: T, z: T) -> T {
        x.plus(y.times(z))
    }
}

impl<T: Integer> Form<T> for MinusProduct {
    ghost form = { form.SubMultiply };

    fn apply(x: T, y: T, z: T) -> T {
        x.minus(y.times(z))
    }
}

impl<T: Integer> Form<T> for ProductMinus {
    ghost form = { form.MultiplySub };

    fn apply(x: T, y: T, z: T) -> T {
        x.times(y).minus(z)
    }
}

/// Place by place the form of three numbers, in one pass.
fn fused_values<T: Integer, F: Form<T>>(
    alloc: Global,
    a: &[T],
    b: &[T],
    c: &[T],
) -> Result<Vec<T>, AllocError>
    ensures { IfOk result (λ v. map T.integer v.items
        ≡ fused_places F.form T.value_type (map T.integer a.now) (map T.integer b.now) (map T.integer c.now)) }
{
    a.iter()
        .zip(b)
        .zip(c)
        .map(|((x, y), z)| F::apply(*x, *y, *z))
        .collect(alloc)
}

/// Which rows are null in none of the three.
fn validity_of<T: Integer>(
    alloc: Global,
    a: &IntegerArray<T>,
    b: &IntegerArray<T>,
    c: &IntegerArray<T>,
) -> Result<Bitmap, AllocError>
    requires first { length a.now ≡ length b.now }
    requires second { length b.now ≡ length c.now }
    ensures { IfOk result (λ r. r ≡ all_valid (map is_some a.now) (map is_some b.now) (map is_some c.now)) }
{
    let pair = a.valid().and(alloc, b.valid())?;
    pair.and(alloc, c.valid())
}

/// Row by row the form of as many rows, null where one is null.
fn fused_elementwise<T: Integer, F: Form<T>>(
    alloc: Global,
    a: &IntegerArray<T>,
    b: &IntegerArray<T>,
    c: &IntegerArray<T>,
) -> Result<IntegerArray<T>, AllocError>
    requires first { length a.now ≡ length b.now }
    requires second { length b.now ≡ length c.now }
    ensures { IfOk result (λ r. r ≡ zip3 (fused_row F.form T.value_type) a.now b.now c.now) }
{
    let valid = validity_of(alloc, a, b, c)?;
    let values = fused_values::<T, F>(alloc, a.values(), b.values(), c.values())?;
    Ok(IntegerArray::from_parts(values, valid))
}

/// Row by row the form of three lists of one length.
fn fused_integers<T: Integer>(
    alloc: Global,
    op: FusedOperator,
    a: &IntegerArray<T>,
    b: &IntegerArray<T>,
    c: &IntegerArray<T>,
) -> Result<IntegerArray<T>, AllocError>
    requires first { length a.now ≡ length b.now }
    requires second { length b.now ≡ length c.now }
    ensures { IfOk result (λ r. r ≡ zip3 (fused_row op T.value_type) a.now b.now c.now) }
{
    match op {
        FusedOperator::MultiplyAdd => fused_elementwise::<T, PlusProduct>(alloc, a, b, c),
        FusedOperator::SubMultiply => fused_elementwise::<T, MinusProduct>(alloc, a, b, c),
        FusedOperator::MultiplySub => fused_elementwise::<T, ProductMinus>(alloc, a, b, c),
    }
}

/// Row by row the form of three buffers of one integer type and one length.
fn elementwise_buffers(
    alloc: Global,
    op: FusedOperator,
    a: &Buffer,
    b: &Buffer,
    c: &Buffer,
) -> Result<Buffer, AllocError>
    requires integer { IsInteger (type_of a.now) }
    requires same { type_of a.now ≡ type_of b.now }
    requires third { type_of b.now ≡ type_of c.now }
    requires first { length (rows_of a.now) ≡ length (rows_of b.now) }
    requires second { length (rows_of b.now) ≡ length (rows_of c.now) }
    ensures value_type { IfOk result (λ r. type_of r ≡ type_of a.now) }
    ensures rows { IfOk result (λ r. rows_of r
        ≡ zip3 (fused_row op (type_of a.now)) (rows_of a.now) (rows_of b.now) (rows_of c.now)) }
{
    integers!((a, b, c) {} => Buffer fused_integers(alloc, op, a, b, c))
}

/// `a + b * c` in two steps. One row goes with each row of the others.
fn plus_product(alloc: Global, a: &Buffer, b: &Buffer, c: &Buffer) -> Result<Buffer, PlanError>
    requires integer { IsInteger (type_of a.now) }
    requires same { type_of a.now ≡ type_of b.now }
    requires third { type_of b.now ≡ type_of c.now }
    ensures value_type { IfOk result (λ r. type_of r ≡ type_of a.now) }
    ensures rows { GivesOr PlanError.ShapeMismatch (λ r. rows_of r) result
        (elementwise_three (fused_row form.MultiplyAdd (type_of a.now)) (rows_of a.now) (rows_of b.now) (rows_of c.now)) }
{
    let product = ring_buffers(alloc, Operator::Multiply, b, c)?;
    ring_buffers(alloc, Operator::Plus, a, &product)
}

/// `a - b * c` in two steps.
fn minus_product(alloc: Global, a: &Buffer, b: &Buffer, c: &Buffer) -> Result<Buffer, PlanError>
    requires integer { IsInteger (type_of a.now) }
    requires same { type_of a.now ≡ type_of b.now }
    requires third { type_of b.now ≡ type_of c.now }
    ensures value_type { IfOk result (λ r. type_of r ≡ type_of a.now) }
    ensures rows { GivesOr PlanError.ShapeMismatch (λ r. rows_of r) result
        (elementwise_three (fused_row form.SubMultiply (type_of a.now)) (rows_of a.now) (rows_of b.now) (rows_of c.now)) }
{
    let product = ring_buffers(alloc, Operator::Multiply, b, c)?;
    ring_buffers(alloc, Operator::Minus, a, &product)
}

/// `a * b - c` in two steps.
fn product_minus(alloc: Global, a: &Buffer, b: &Buffer, c: &Buffer) -> Result<Buffer, PlanError>
    requires integer { IsInteger (type_of a.now) }
    requires same { type_of a.now ≡ type_of b.now }
    requires third { type_of b.now ≡ type_of c.now }
    ensures value_type { IfOk result (λ r. type_of r ≡ type_of a.now) }
    ensures rows { GivesOr PlanError.ShapeMismatch (λ r. rows_of r) result
        (elementwise_three (fused_row form.MultiplySub (type_of a.now)) (rows_of a.now) (rows_of b.now) (rows_of c.now)) }
{
    let product = ring_buffers(alloc, Operator::Multiply, a, b)?;
    ring_buffers(alloc, Operator::Minus, &product, c)
}

/// Row by row the form in two steps, of which neither keeps a side of one row at the length of the others.
fn stepped_buffers(
    alloc: Global,
    op: FusedOperator,
    a: &Buffer,
    b: &Buffer,
    c: &Buffer,
) -> Result<Buffer, PlanError>
    requires integer { IsInteger (type_of a.now) }
    requires same { type_of a.now ≡ type_of b.now }
    requires third { type_of b.now ≡ type_of c.now }
    ensures value_type { IfOk result (λ r. type_of r ≡ type_of a.now) }
    ensures rows { GivesOr PlanError.ShapeMismatch (λ r. rows_of r) result
        (elementwise_three (fused_row op (type_of a.now)) (rows_of a.now) (rows_of b.now) (rows_of c.now)) }
{
    match op {
        FusedOperator::MultiplyAdd => plus_product(alloc, a, b, c),
        FusedOperator::SubMultiply => minus_product(alloc, a, b, c),
        FusedOperator::MultiplySub => product_minus(alloc, a, b, c),
    }
}

/// Row by row the form of three buffers of one integer type, in one pass where they have one length.
fn fuse(
    alloc: Global,
    op: FusedOperator,
    a: &Buffer,
    b: &Buffer,
    c: &Buffer,
) -> Result<Buffer, PlanError>
    requires integer { IsInteger (type_of a.now) }
    requires same { type_of a.now ≡ type_of b.now }
    requires third { type_of b.now ≡ type_of c.now }
    ensures value_type { IfOk result (λ r. type_of r ≡ type_of a.now) }
    ensures rows { GivesOr PlanError.ShapeMismatch (λ r. rows_of r) result
        (elementwise_three (fused_row op (type_of a.now)) (rows_of a.now) (rows_of b.now) (rows_of c.now)) }
{
    let len = a.len();
    if len == b.len() && len == c.len() {
        return Ok(elementwise_buffers(alloc, op, a, b, c)?);
    }
    stepped_buffers(alloc, op, a, b, c)
}

/// Row by row a product and a sum or a difference of three buffers of one integer type, taken into the
/// type: `a + b*c` (`MultiplyAdd`), `a - b*c` (`SubMultiply`) or `a*b - c` (`MultiplySub`). A row is null
/// where one is null. A buffer of one row goes with each row of the others. `ShapeMismatch` where the three
/// lengths do not broadcast. The forms are those of Polars' `fma`, `fsm` and `fms`.
pub fn fused_buffers(
    alloc: Global,
    op: FusedOperator,
    a: &Buffer,
    b: &Buffer,
    c: &Buffer,
) -> Result<Buffer, PlanError>
    requires integer { IsInteger (type_of a.now) }
    requires same { type_of a.now ≡ type_of b.now }
    requires third { type_of b.now ≡ type_of c.now }
    ensures rows { GivesOr PlanError.ShapeMismatch (λ d. values_of d) result
        (fused_rows op (values_of a.now) (values_of b.now) (values_of c.now)) }
{
    fuse(alloc, op, a, b, c)
}

/// The same of three columns, under the name of the first.
pub fn fused(
    alloc: Global,
    op: FusedOperator,
    a: &Column,
    b: &Column,
    c: &Column,
) -> Result<Column, PlanError>
    requires integer { IsInteger a.now.values.value_type }
    requires same { a.now.values.value_type ≡ b.now.values.value_type }
    requires third { b.now.values.value_type ≡ c.now.values.value_type }
    ensures name { IfOk result (λ d. d.name ≡ a.now.name) }
    ensures rows { GivesOr PlanError.ShapeMismatch (λ d. d.values) result
        (fused_rows op a.now.values b.now.values c.now.values) }
{
    let buffer = fused_buffers(alloc, op, a.buffer(), b.buffer(), c.buffer())?;
    let name = a.name().try_clone(alloc)?;
    Ok(Column::new(name, buffer))
}
