//! Neighbouring rows of a buffer, which are copied at once.
ghost use Rattle.std.specs.Prelude.{◌≡◌, ◌≤◌, length, slice_range, IfOk, IfErr};
ghost use Rattle.px_base.specs.Answer.{GivesOrMemory};
ghost use Rattle.px_column.specs.ColumnOf.{type_of, rows_of};

use px_arrays::{Bitmap, BooleanArray, IntegerArray, StringArray, StringArrayBuilder};
use px_column::Buffer;
use px_integers::Integer;
use px_types::PlanError;
use std::alloc::{AllocError, Global};

/// The numbers from `start` on, before `end`.
fn range_values<T: Integer>(
    alloc: Global,
    values: &[T],
    start: usize,
    end: usize,
) -> Result<Vec<T>, AllocError>
    requires order { start ≤ end }
    requires inside { end ≤ length values.now }
    ensures { IfOk result (λ v. v.items ≡ slice_range values.now start end) }
{
    Vec::from_slice(alloc, &values[start..end])
}

/// The bits from `start` on, before `end`.
fn range_bits(alloc: Global, bits: &Bitmap, start: usize, end: usize) -> Result<Bitmap, AllocError>
    requires order { start ≤ end }
    requires inside { end ≤ length bits.now }
    ensures { IfOk result (λ b. b ≡ slice_range bits.now start end) }
{
    prove!(bits.len() <= u32::MAX as usize);
    let mut flags = Vec::with_capacity(alloc, end - start)?;
    for i in start..end {
        flags.push(bits.get(i))?;
    }
    Bitmap::from_bools(alloc, flags.as_slice())
}

/// The rows from `start` on, before `end`.
fn range_integers<T: Integer>(
    alloc: Global,
    a: &IntegerArray<T>,
    start: usize,
    end: usize,
) -> Result<IntegerArray<T>, AllocError>
    requires order { start ≤ end }
    requires inside { end ≤ length a.now }
    ensures { IfOk result (λ r. r ≡ slice_range a.now start end) }
{
    let numbers = range_values(alloc, a.values(), start, end)?;
    let valid = range_bits(alloc, a.valid(), start, end)?;
    Ok(IntegerArray::from_parts(numbers, valid))
}

/// The rows from `start` on, before `end`.
fn range_booleans(
    alloc: Global,
    a: &BooleanArray,
    start: usize,
    end: usize,
) -> Result<BooleanArray, AllocError>
    requires order { start ≤ end }
    requires inside { end ≤ length a.now }
    ensures { IfOk result (λ r. r ≡ slice_range a.now start end) }
{
    prove!(a.len() <= u32::MAX as usize);
    let truth = range_bits(alloc, a.truth(), start, end)?;
    let valid = range_bits(alloc, a.valid(), start, end)?;
    BooleanArray::masked(alloc, &truth, valid)
}

/// The rows from `start` on, before `end`.
fn range_strings(
    alloc: Global,
    a: &StringArray,
    start: usize,
    end: usize,
) -> Result<StringArray, PlanError>
    requires order { start ≤ end }
    requires inside { end ≤ length a.now }
    ensures { GivesOrMemory result (slice_range a.now start end) }
{
    prove!(a.len() <= u32::MAX as usize);
    let mut rows = StringArrayBuilder::with_capacity(alloc, end - start)?;
    for i in start..end {
        rows.push(a.get(i))?;
    }
    rows.finish()
}

/// The rows of a buffer from `start` on, before `end`.
pub fn range_rows(alloc: Global, a: &Buffer, start: u32, end: u32) -> Result<Buffer, PlanError>
    requires order { start ≤ end }
    requires inside { end ≤ length (rows_of a.now) }
    ensures value_type { IfOk result (λ r. type_of r ≡ type_of a.now) }
    ensures rows { IfOk result (λ r. rows_of r ≡ slice_range (rows_of a.now) start end) }
    ensures err { IfErr result (λ e. e ≡ PlanError.OutOfMemory) }
{
    let from = start as usize;
    let to = end as usize;
    match a {
        Buffer::Null(_) => Ok(Buffer::Null(end - start)),
        Buffer::Boolean(rows) => Ok(Buffer::Boolean(range_booleans(alloc, rows, from, to)?)),
        Buffer::String(rows) => Ok(Buffer::String(range_strings(alloc, rows, from, to)?)),
        Buffer::Int8(rows) => Ok(Buffer::Int8(range_integers(alloc, rows, from, to)?)),
        Buffer::Int16(rows) => Ok(Buffer::Int16(range_integers(alloc, rows, from, to)?)),
        Buffer::Int32(rows) => Ok(Buffer::Int32(range_integers(alloc, rows, from, to)?)),
        Buffer::Int64(rows) => Ok(Buffer::Int64(range_integers(alloc, rows, from, to)?)),
        Buffer::UInt8(rows) => Ok(Buffer::UInt8(range_integers(alloc, rows, from, to)?)),
        Buffer::UInt16(rows) => Ok(Buffer::UInt16(range_integers(alloc, rows, from, to)?)),
        Buffer::UInt32(rows) => Ok(Buffer::UInt32(range_integers(alloc, rows, from, to)?)),
        Buffer::UInt64(rows) => Ok(Buffer::UInt64(range_integers(alloc, rows, from, to)?)),
    }
}
