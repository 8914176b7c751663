//! A range of rows, by its offset and its length.
ghost use Rattle.std.specs.Prelude.{◌≡◌, ◌==◌, ◌&&◌, ◌<◌, ◌≤◌, length, get_or, pos, ◌+ℤ◌, ◌≤ℤ◌, None, IfOk, IfSome};
ghost use Rattle.px_base.specs.Answer.{AnswersOrMemory};
ghost use Rattle.px_types.specs.Integers.{IsInteger};
ghost use Rattle.px_semantics.specs.Rows.{integer_row};
ghost use Rattle.px_semantics.specs.Slices.{clamp, range_start, range_of, slice_rows};
ghost use Rattle.px_column.specs.Buffers.{values_of};
ghost use Rattle.px_column.specs.ColumnOf.{type_of, rows_of};

use crate::arms::integers;
use crate::positions::from_start;
use crate::ranges::range_rows;
use px_arrays::IntegerArray;
use px_column::{Buffer, Column};
use px_integers::Integer;
use px_types::PlanError;
use std::alloc::Global;

/// The first number, or None where it is null.
fn first_number<T: Integer>(rows: &IntegerArray<T>) -> Option<i128>
    requires { 0 < length rows.now }
    ensures { integer_row result ≡ get_or rows.now 0 None }
{
    match rows.get(0) {
        Some(number) => Some(number.to_wide()),
        None => None,
    }
}

/// The number of a buffer of one row, or None where it is null.
fn bound_of(a: &Buffer) -> Option<i128>
    requires integer { IsInteger (type_of a.now) }
    requires one_row { length (rows_of a.now) ≡ 1 }
    ensures { integer_row result ≡ get_or (rows_of a.now) 0 None }
{
    integers!((a) {} => first_number(a))
}

/// The position nearest to a number, of 0 to `len`.
fn clamp(position: i128, len: u32) -> u32
    ensures value { result ≡ clamp len position }
    ensures inside { result ≤ len }
{
    if position <= 0 {
        return 0;
    }
    if position < i128::from(len) {
        position as u32
    } else {
        len
    }
}

/// Where a range of `len` rows starts and ends. The end is computed exactly, and then both are brought to the
/// rows that there are.
fn range_between(offset: i128, count: i128, len: u32) -> (u32, u32)
    requires { pos 0 ≤ℤ count }
    ensures start { result.0 ≡ clamp len (range_start len offset) }
    ensures end { result.1 ≡ clamp len (range_start len offset +ℤ count) }
    ensures order { result.0 ≤ result.1 }
    ensures inside { result.1 ≤ len }
{
    let start = from_start(offset, len);
    let end = start.saturating_add(count);
    (clamp(start, len), clamp(end, len))
}

/// Where a range of `len` rows starts and ends. None where a bound is null, or the length is negative.
#[tactic(auto, using(crate::proofs::Sliced::range_is, crate::proofs::Sliced::no_range))]
fn range_of(offset: Option<i128>, count: Option<i128>, len: u32) -> Option<(u32, u32)>
    ensures range { result ≡ range_of len (integer_row offset) (integer_row count) }
    ensures inside { IfSome result (λ r. (r.0 ≤ r.1) × (r.1 ≤ len)) }
{
    let Some(offset) = offset else {
        return None;
    };
    let Some(count) = count else {
        return None;
    };
    if count < 0 {
        return None;
    }
    Some(range_between(offset, count, len))
}

/// Whether two columns have one row each.
fn are_single(m: u32, n: u32) -> bool
    ensures { result ≡ (m == 1 && n == 1) }
{
    m == 1 && n == 1
}

/// So many rows of `a` from an offset on, of those that there are. A negative offset counts from the end.
/// `ShapeMismatch` where the offset or the length has not one row. Otherwise `OutOfBounds` where one of them is
/// null, or the length is negative.
pub fn slice_buffers(
    alloc: Global,
    a: &Buffer,
    offset: &Buffer,
    count: &Buffer,
) -> Result<Buffer, PlanError>
    requires offset { IsInteger (type_of offset.now) }
    requires count { IsInteger (type_of count.now) }
    ensures rows { AnswersOrMemory (λ c. values_of c) result
        (slice_rows (values_of a.now) (values_of offset.now) (values_of count.now)) }
{
    if !are_single(offset.len(), count.len()) {
        return Err(PlanError::ShapeMismatch);
    }
    let Some((start, end)) = range_of(bound_of(offset), bound_of(count), a.len()) else {
        return Err(PlanError::OutOfBounds);
    };
    range_rows(alloc, a, start, end)
}

/// So many rows of `a` from an offset on, of those that there are, under the name of `a`, as Polars' `slice`: a
/// negative offset counts from the end. `ShapeMismatch` where the offset or the length has not one row.
/// Otherwise `OutOfBounds` where one of them is null, or the length is negative. Else the only error is out of
/// memory.
pub fn slice(
    alloc: Global,
    a: &Column,
    offset: &Column,
    length: &Column,
) -> Result<Column, PlanError>
    requires offset { IsInteger offset.now.values.value_type }
    requires length { IsInteger length.now.values.value_type }
    ensures name { IfOk result (λ c. c.name ≡ a.now.name) }
    ensures rows { AnswersOrMemory (λ c. c.values) result
        (slice_rows a.now.values offset.now.values length.now.values) }
{
    let buffer = slice_buffers(alloc, a.buffer(), offset.buffer(), length.buffer())?;
    let name = a.name().try_clone(alloc)?;
    Ok(Column::new(name, buffer))
}
