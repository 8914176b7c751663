//! Two lists of rows as one.
ghost use Rattle.std.specs.Prelude.{◌≡◌, ◌+◌, ◌<◌, ◌≤◌, ◌^◌, ◌++◌, length, IfOk, IfErr, IfSome, IfNone};
ghost use Rattle.px_base.specs.Answer.{GivesOrMemory, GivesOr};
ghost use Rattle.px_column.specs.Buffers.{values_of};
ghost use Rattle.px_semantics.specs.Slices.{append_rows};
ghost use Rattle.px_column.specs.ColumnOf.{type_of, rows_of};

use crate::arms::integers;
use px_arrays::{Bitmap, BooleanArray, IntegerArray, StringArray, StringArrayBuilder};
use px_column::{Buffer, Column};
use px_integers::Integer;
use px_types::PlanError;
use std::alloc::{AllocError, Global};

/// The numbers of the first, and then those of the second.
fn appended_values<T: Integer>(alloc: Global, a: &[T], b: &[T]) -> Result<Vec<T>, AllocError>
    requires { length a.now + length b.now < 2 ^ 32 }
    ensures { IfOk result (λ v. v.items ≡ a.now ++ b.now) }
{
    let mut values = Vec::with_capacity(alloc, a.len() + b.len())?;
    values.extend_from_slice(a)?;
    values.extend_from_slice(b)?;
    Ok(values)
}

/// The bits of the first, and then those of the second.
fn appended_bits(alloc: Global, a: &Bitmap, b: &Bitmap) -> Result<Bitmap, AllocError>
    requires { length a.now + length b.now < 2 ^ 32 }
    ensures { IfOk result (λ r. r ≡ a.now ++ b.now) }
{
    let mut flags = Vec::with_capacity(alloc, a.len() + b.len())?;
    for i in 0..a.len() {
        flags.push(a.get(i))?;
    }
    for j in 0..b.len() {
        flags.push(b.get(j))?;
    }
    Bitmap::from_bools(alloc, flags.as_slice())
}

/// The rows of the first, and then those of the second.
fn appended_integers<T: Integer>(
    alloc: Global,
    a: &IntegerArray<T>,
    b: &IntegerArray<T>,
) -> Result<IntegerArray<T>, AllocError>
    requires { length a.now + length b.now < 2 ^ 32 }
    ensures { IfOk result (λ r. r ≡ a.now ++ b.now) }
{
    let numbers = appended_values(alloc, a.values(), b.values())?;
    let valid = appended_bits(alloc, a.valid(), b.valid())?;
    Ok(IntegerArray::from_parts(numbers, valid))
}

/// The rows of the first, and then those of the second.
fn appended_booleans(
    alloc: Global,
    a: &BooleanArray,
    b: &BooleanArray,
) -> Result<BooleanArray, AllocError>
    requires { length a.now + length b.now < 2 ^ 32 }
    ensures { IfOk result (λ r. r ≡ a.now ++ b.now) }
{
    prove!(a.len() + b.len() <= u32::MAX as usize);
    let truth = appended_bits(alloc, a.truth(), b.truth())?;
    let valid = appended_bits(alloc, a.valid(), b.valid())?;
    BooleanArray::masked(alloc, &truth, valid)
}

/// The rows of the first, and then those of the second.
fn appended_strings(
    alloc: Global,
    a: &StringArray,
    b: &StringArray,
) -> Result<StringArray, PlanError>
    requires { length a.now + length b.now < 2 ^ 32 }
    ensures { GivesOrMemory result (a.now ++ b.now) }
{
    let mut rows = StringArrayBuilder::with_capacity(alloc, a.len() + b.len())?;
    for i in 0..a.len() {
        rows.push(a.get(i))?;
    }
    for j in 0..b.len() {
        rows.push(b.get(j))?;
    }
    rows.finish()
}

/// The sum of two lengths, where a column may be so long.
fn appended_length(m: u32, n: u32) -> Option<u32>
    ensures some { IfSome result (λ len. (len ≡ m + n) × (len < 2 ^ 32)) }
    ensures none { IfNone result (2 ^ 32 ≤ m + n) }
{
    if m <= u32::MAX - n { Some(m + n) } else { None }
}

/// The rows of the first, and then those of the second, of two buffers of one type, `len` in all.
fn appended_rows(alloc: Global, a: &Buffer, b: &Buffer, len: u32) -> Result<Buffer, PlanError>
    requires same { type_of a.now ≡ type_of b.now }
    requires sum { len ≡ length (rows_of a.now) + length (rows_of b.now) }
    ensures value_type { IfOk result (λ r. type_of r ≡ type_of a.now) }
    ensures rows { IfOk result (λ r. rows_of r ≡ rows_of a.now ++ rows_of b.now) }
    ensures err { IfErr result (λ e. e ≡ PlanError.OutOfMemory) }
{
    integers!((a, b) {
        (Buffer::Null(_), Buffer::Null(_)) => Ok(Buffer::Null(len)),
        (Buffer::Boolean(a), Buffer::Boolean(b)) => Ok(Buffer::Boolean(appended_booleans(alloc, a, b)?)),
        (Buffer::String(a), Buffer::String(b)) => Ok(Buffer::String(appended_strings(alloc, a, b)?)),
    } => Buffer appended_integers(alloc, a, b))
}

/// The rows of `a`, and then those of `b`: two buffers of one type. `TooLong` from 2^32 rows on.
pub fn append_buffers(alloc: Global, a: &Buffer, b: &Buffer) -> Result<Buffer, PlanError>
    requires { type_of a.now ≡ type_of b.now }
    ensures rows { GivesOr PlanError.TooLong (λ c. values_of c) result
        (append_rows (values_of a.now) (values_of b.now)) }
{
    let Some(len) = appended_length(a.len(), b.len()) else {
        return Err(PlanError::TooLong);
    };
    appended_rows(alloc, a, b, len)
}

/// The rows of `a`, and then those of `b`, two columns of one type, under the name of `a`, as Polars'
/// `append`. `TooLong` from 2^32 rows on. Else the only error is out of memory.
pub fn append(alloc: Global, a: &Column, b: &Column) -> Result<Column, PlanError>
    requires { a.now.values.value_type ≡ b.now.values.value_type }
    ensures name { IfOk result (λ c. c.name ≡ a.now.name) }
    ensures rows { GivesOr PlanError.TooLong (λ c. c.values) result
        (append_rows a.now.values b.now.values) }
{
    let buffer = append_buffers(alloc, a.buffer(), b.buffer())?;
    let name = a.name().try_clone(alloc)?;
    Ok(Column::new(name, buffer))
}
