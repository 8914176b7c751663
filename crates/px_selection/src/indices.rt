//! Rows by indices.
ghost use Rattle.std.specs.Prelude.{◌≡◌, ◌⊎◌, ◌<◌, ◌==◌, ◌&&◌, not, true, false, length, map, get_or, None, IfOk, IfErr};
ghost use Rattle.std.specs.List.{list_all};
ghost use Rattle.px_base.specs.Answer.{AnswersOrMemory};
ghost use Rattle.px_types.specs.Integers.{IsInteger};
ghost use Rattle.px_semantics.specs.Gathers.{position_of, is_inside, gather_rows};
ghost use Rattle.px_selection.specs.Positions.{position_at, position_or_end};
ghost use Rattle.px_column.specs.Buffers.{values_of};
ghost use Rattle.px_column.specs.ColumnOf.{type_of, rows_of};

use crate::arms::integers;
use crate::positions::from_start;
use crate::take::take_rows;
use px_arrays::IntegerArray;
use px_column::{Buffer, Column};
use px_integers::Integer;
use px_types::PlanError;
use std::alloc::Global;

/// The position among `len` rows that an index stands for. A negative index counts from the end. None where it
/// is outside.
fn position_of(index: i128, len: u32) -> Option<u32>
    ensures { result ≡ position_of len index }
{
    let position = from_start(index, len);
    if 0 <= position && position < i128::from(len) {
        Some(position as u32)
    } else {
        None
    }
}

/// The position among `len` rows for the index of row `i`: the end for a null. None where it is outside.
fn position_at<T: Integer>(indices: &IntegerArray<T>, i: usize, len: u32) -> Option<u32>
    requires { i < length indices.now }
    ensures { result ≡ position_at len (get_or indices.now i None) }
{
    match indices.get(i) {
        Some(index) => position_of(index.to_wide(), len),
        None => Some(len),
    }
}

/// The positions among `len` rows that the indices stand for, the end for a null. `OutOfBounds` where an index
/// is outside.
fn index_positions<T: Integer>(
    alloc: Global,
    indices: &IntegerArray<T>,
    len: u32,
) -> Result<Vec<u32>, PlanError>
    ensures positions { IfOk result (λ v. v.items ≡ map (position_or_end len) indices.now) }
    ensures inside { IfOk result (λ v. list_all (is_inside len) indices.now ≡ true) }
    ensures err { IfErr result (λ e. (e ≡ PlanError.OutOfMemory)
        ⊎ ((e ≡ PlanError.OutOfBounds) × (list_all (is_inside len) indices.now ≡ false))) }
{
    let count = indices.len();
    let mut positions = Vec::with_capacity(alloc, count)?;
    for i in 0..count {
        let Some(position) = position_at(indices, i, len) else {
            return Err(PlanError::OutOfBounds);
        };
        positions.push(position)?;
    }
    Ok(positions)
}

/// The same of a buffer of an integer type.
fn positions_of(alloc: Global, indices: &Buffer, len: u32) -> Result<Vec<u32>, PlanError>
    requires { IsInteger (type_of indices.now) }
    ensures positions { IfOk result (λ v. v.items ≡ map (position_or_end len) (rows_of indices.now)) }
    ensures inside { IfOk result (λ v. list_all (is_inside len) (rows_of indices.now) ≡ true) }
    ensures err { IfErr result (λ e. (e ≡ PlanError.OutOfMemory)
        ⊎ ((e ≡ PlanError.OutOfBounds) × (list_all (is_inside len) (rows_of indices.now) ≡ false))) }
{
    integers!((indices) {} => index_positions(alloc, indices, len))
}

/// Whether a scalar is wanted, and there is not one index.
fn is_no_scalar(returns_scalar: bool, count: u32) -> bool
    ensures { result ≡ (returns_scalar && not (count == 1)) }
{
    returns_scalar && count != 1
}

/// The row of `a` at each index of an integer type, null for a null index. A negative index counts from the
/// end. Where a scalar is wanted there is to be one index, else `ShapeMismatch`. Otherwise `OutOfBounds` where
/// an index is outside.
pub fn gather_buffers(
    alloc: Global,
    a: &Buffer,
    idx: &Buffer,
    returns_scalar: bool,
) -> Result<Buffer, PlanError>
    requires { IsInteger (type_of idx.now) }
    ensures rows { AnswersOrMemory (λ c. values_of c) result
        (gather_rows (values_of a.now) (values_of idx.now) returns_scalar) }
{
    if is_no_scalar(returns_scalar, idx.len()) {
        return Err(PlanError::ShapeMismatch);
    }
    let positions = positions_of(alloc, idx, a.len())?;
    take_rows(alloc, a, positions.as_slice())
}

/// The row of `a` at each index of an integer type, null for a null index, under the name of `a`, as Polars'
/// `gather` and `get`. A negative index counts from the end. Where a scalar is wanted there is to be one index,
/// else `ShapeMismatch`. Otherwise `OutOfBounds` where an index is outside. Else the only error is out of
/// memory.
pub fn gather(
    alloc: Global,
    a: &Column,
    idx: &Column,
    returns_scalar: bool,
) -> Result<Column, PlanError>
    requires { IsInteger idx.now.values.value_type }
    ensures name { IfOk result (λ c. c.name ≡ a.now.name) }
    ensures rows { AnswersOrMemory (λ c. c.values) result
        (gather_rows a.now.values idx.now.values returns_scalar) }
{
    let buffer = gather_buffers(alloc, a.buffer(), idx.buffer(), returns_scalar)?;
    let name = a.name().try_clone(alloc)?;
    Ok(Column::new(name, buffer))
}
