//! The eight comparisons of buffers and of columns.
ghost use Rattle.std.specs.Prelude.{◌≡◌, ◌⊎◌, length, replicate, Some, None, not, IfOk, IfErr};
ghost use Rattle.px_base.specs.Answer.{GivesOr};
ghost use Rattle.std.specs.Simd.Lanes.{zip2};
ghost use Rattle.px_semantics.specs.Comparisons.{less, equal, test_row, compare_row, compare_rows, IsComparison};
ghost use Rattle.px_column.specs.ColumnOf.{type_of, rows_of};
ghost use Rattle.px_column.specs.Buffers.{values_of};
ghost use Rattle.px_kernels.specs.Matches.{match_row, mismatch_row};

use crate::arms::integers;
use crate::lengths::{broadcast, wide_or};
use crate::row_tests::{Less, Same, boolean_equal, boolean_less, integer_tests, string_tests};
use px_arrays::{Bitmap, BooleanArray};
use px_column::{Buffer, Column, join_lengths};
use px_types::{Operator, PlanError};
use std::alloc::{AllocError, Global};

/// So many nulls.
pub fn null_booleans(alloc: Global, len: u32) -> Result<BooleanArray, AllocError>
    ensures { IfOk result (λ r. r ≡ replicate len None) }
{
    let flags = Bitmap::filled(alloc, len as usize, false)?;
    let valid = flags.try_clone(alloc)?;
    BooleanArray::masked(alloc, &flags, valid)
}

/// Row by row whether the first is less, null where one is null.
fn less_rows(alloc: Global, a: &Buffer, b: &Buffer) -> Result<BooleanArray, AllocError>
    requires same { type_of a.now ≡ type_of b.now }
    requires same_length { length (rows_of a.now) ≡ length (rows_of b.now) }
    ensures { IfOk result (λ r. r ≡ zip2 (test_row less) (rows_of a.now) (rows_of b.now)) }
{
    integers!((a, b) {
        (Buffer::Null(len), Buffer::Null(_)) => null_booleans(alloc, *len),
        (Buffer::Boolean(a), Buffer::Boolean(b)) => boolean_less(alloc, a, b),
        (Buffer::String(a), Buffer::String(b)) => string_tests::<Less>(alloc, a, b),
    } => integer_tests::<_, Less>(alloc, a, b))
}

/// Row by row whether the two are equal, null where one is null.
fn same_rows(alloc: Global, a: &Buffer, b: &Buffer) -> Result<BooleanArray, AllocError>
    requires same { type_of a.now ≡ type_of b.now }
    requires same_length { length (rows_of a.now) ≡ length (rows_of b.now) }
    ensures { IfOk result (λ r. r ≡ zip2 (test_row equal) (rows_of a.now) (rows_of b.now)) }
{
    integers!((a, b) {
        (Buffer::Null(len), Buffer::Null(_)) => null_booleans(alloc, *len),
        (Buffer::Boolean(a), Buffer::Boolean(b)) => boolean_equal(alloc, a, b),
        (Buffer::String(a), Buffer::String(b)) => string_tests::<Same>(alloc, a, b),
    } => integer_tests::<_, Same>(alloc, a, b))
}

/// Row by row whether both are null, or both are equal values.
fn matches(alloc: Global, a: &Buffer, b: &Buffer) -> Result<BooleanArray, AllocError>
    requires same { type_of a.now ≡ type_of b.now }
    requires same_length { length (rows_of a.now) ≡ length (rows_of b.now) }
    ensures { IfOk result (λ r. r ≡ zip2 match_row (rows_of a.now) (rows_of b.now)) }
{
    let same = same_rows(alloc, a, b)?;
    let mine = a.valid(alloc)?;
    let others = b.valid(alloc)?;
    let either = mine.or(alloc, &others)?;
    let neither = either.not(alloc)?;
    let flags = same.truth().or(alloc, &neither)?;
    BooleanArray::non_null(alloc, flags)
}

/// Row by row whether the two differ, null where one is null.
fn differ_rows(alloc: Global, a: &Buffer, b: &Buffer) -> Result<BooleanArray, AllocError>
    requires same { type_of a.now ≡ type_of b.now }
    requires same_length { length (rows_of a.now) ≡ length (rows_of b.now) }
    ensures { IfOk result (λ r. r ≡ zip2 (test_row (λ x y. not (equal x y))) (rows_of a.now) (rows_of b.now)) }
{
    let same = same_rows(alloc, a, b)?;
    same.not(alloc)
}

/// Row by row whether the first is not less, null where one is null.
fn not_less_rows(alloc: Global, a: &Buffer, b: &Buffer) -> Result<BooleanArray, AllocError>
    requires same { type_of a.now ≡ type_of b.now }
    requires same_length { length (rows_of a.now) ≡ length (rows_of b.now) }
    ensures { IfOk result (λ r. r ≡ zip2 (test_row (λ x y. not (less x y))) (rows_of a.now) (rows_of b.now)) }
{
    let below = less_rows(alloc, a, b)?;
    below.not(alloc)
}

/// Row by row the negation of `matches`.
fn mismatches(alloc: Global, a: &Buffer, b: &Buffer) -> Result<BooleanArray, AllocError>
    requires same { type_of a.now ≡ type_of b.now }
    requires same_length { length (rows_of a.now) ≡ length (rows_of b.now) }
    ensures { IfOk result (λ r. r ≡ zip2 mismatch_row (rows_of a.now) (rows_of b.now)) }
{
    let same = matches(alloc, a, b)?;
    same.not(alloc)
}

/// Row by row the comparison of two buffers of one type and one length.
fn elementwise_values(
    alloc: Global,
    op: Operator,
    a: &Buffer,
    b: &Buffer,
) -> Result<BooleanArray, AllocError>
    requires comparison { IsComparison op }
    requires same { type_of a.now ≡ type_of b.now }
    requires same_length { length (rows_of a.now) ≡ length (rows_of b.now) }
    ensures { IfOk result (λ r. r ≡ zip2 (compare_row op) (rows_of a.now) (rows_of b.now)) }
{
    match op {
        Operator::Eq => same_rows(alloc, a, b),
        Operator::NotEq => differ_rows(alloc, a, b),
        Operator::Lt => less_rows(alloc, a, b),
        Operator::LtEq => not_less_rows(alloc, b, a),
        Operator::Gt => less_rows(alloc, b, a),
        Operator::GtEq => not_less_rows(alloc, a, b),
        Operator::EqValidity => matches(alloc, a, b),
        Operator::NotEqValidity => mismatches(alloc, a, b),
        _ => unreachable!(),
    }
}

/// Row by row one of the eight comparisons of two buffers of one type, Boolean rows. A row is null where
/// one is null, but for the two operators that see missing values, which never give null. A buffer of one
/// row goes with each row of the other. `ShapeMismatch` where the lengths do not broadcast.
pub fn compare_buffers(
    alloc: Global,
    op: Operator,
    a: &Buffer,
    b: &Buffer,
) -> Result<Buffer, PlanError>
    requires comparison { IsComparison op }
    requires same { type_of a.now ≡ type_of b.now }
    ensures rows { GivesOr PlanError.ShapeMismatch (λ c. values_of c) result
        (compare_rows op (values_of a.now) (values_of b.now)) }
{
    let Some(len) = join_lengths(a.len(), b.len()) else {
        return Err(PlanError::ShapeMismatch);
    };
    let first = broadcast(alloc, a, len)?;
    let second = broadcast(alloc, b, len)?;
    let rows = elementwise_values(alloc, op, wide_or(&first, a), wide_or(&second, b))?;
    Ok(Buffer::Boolean(rows))
}

/// The same of two columns, under the name of the first.
pub fn compare(alloc: Global, op: Operator, a: &Column, b: &Column) -> Result<Column, PlanError>
    requires comparison { IsComparison op }
    requires same { a.now.values.value_type ≡ b.now.values.value_type }
    ensures name { IfOk result (λ c. c.name ≡ a.now.name) }
    ensures rows { GivesOr PlanError.ShapeMismatch (λ c. c.values) result
        (compare_rows op a.now.values b.now.values) }
{
    let buffer = compare_buffers(alloc, op, a.buffer(), b.buffer())?;
    let name = a.name().try_clone(alloc)?;
    Ok(Column::new(name, buffer))
}
