//! Rows of two buffers or columns selected by a mask.
ghost use Rattle.std.specs.Prelude.{◌≡◌, ◌⊎◌, ◌<◌, cond, length, map, pos, get_or, false, Some, None, IfOk, IfErr};
ghost use Rattle.std.specs.Option.{option_copied};
ghost use Rattle.px_base.specs.Answer.{GivesOrMemory, GivesOr};
ghost use Rattle.px_semantics.specs.Selections.{select_row, select_all, select_rows};
ghost use Rattle.px_semantics.specs.Logic.{is_true};
ghost use Rattle.px_semantics.specs.Rows.{IsBoolean, string_row};
ghost use Rattle.px_column.specs.Buffers.{values_of};
ghost use Rattle.px_kernels.specs.SelectedPlaces.{selected_bits, selected_places};
ghost use Rattle.px_column.specs.ColumnOf.{type_of, rows_of};

use crate::arms::integers;
use crate::lengths::{broadcast, join_three_lengths, wide_or};
use px_arrays::{Bitmap, BooleanArray, IntegerArray, StringArray, StringArrayBuilder};
use px_column::{Buffer, Column};
use px_integers::Integer;
use px_types::PlanError;
use std::alloc::{AllocError, Global};

/// The number at place `i` of the first where the mask is set there, else that of the second.
fn selected_integer<T: Integer>(mask: &Bitmap, a: &[T], b: &[T], i: usize) -> T
    requires mask { i < length mask.now }
    requires a { i < length a.now }
    requires b { i < length b.now }
    ensures { T.integer result ≡ cond (get_or mask.now i false) (get_or (map T.integer a.now) i (pos 0))
        (get_or (map T.integer b.now) i (pos 0)) }
{
    if mask.get(i) { a[i] } else { b[i] }
}

/// Place by place the number of the first where the mask is set, else that of the second.
fn select_values<T: Integer>(
    alloc: Global,
    mask: &Bitmap,
    a: &[T],
    b: &[T],
) -> Result<Vec<T>, AllocError>
    requires mask { length mask.now ≡ length a.now }
    requires same_length { length a.now ≡ length b.now }
    ensures { IfOk result (λ v. map T.integer v.items
        ≡ selected_places mask.now (map T.integer a.now) (map T.integer b.now)) }
{
    (0..a.len())
        .map(|i| selected_integer(mask, a, b, i))
        .collect(alloc)
}

/// The bits of the first where the mask is set, else those of the second.
fn select_bits(alloc: Global, mask: &Bitmap, a: &Bitmap, b: &Bitmap) -> Result<Bitmap, AllocError>
    requires mask { length mask.now ≡ length a.now }
    requires same_length { length a.now ≡ length b.now }
    ensures { IfOk result (λ r. r ≡ selected_bits mask.now a.now b.now) }
{
    let others = mask.not(alloc)?;
    let first = a.and(alloc, mask)?;
    let second = b.and(alloc, &others)?;
    first.or(alloc, &second)
}

/// Row by row the first where the mask is true, else the second.
fn select_integers<T: Integer>(
    alloc: Global,
    mask: &BooleanArray,
    a: &IntegerArray<T>,
    b: &IntegerArray<T>,
) -> Result<IntegerArray<T>, AllocError>
    requires mask { length mask.now ≡ length a.now }
    requires same_length { length a.now ≡ length b.now }
    ensures { IfOk result (λ r. r ≡ select_all mask.now a.now b.now) }
{
    let flags = mask.truth();
    let numbers = select_values(alloc, flags, a.values(), b.values())?;
    let valid = select_bits(alloc, flags, a.valid(), b.valid())?;
    Ok(IntegerArray::from_parts(numbers, valid))
}

/// Row by row the first where the mask is true, else the second.
fn select_booleans(
    alloc: Global,
    mask: &BooleanArray,
    a: &BooleanArray,
    b: &BooleanArray,
) -> Result<BooleanArray, AllocError>
    requires mask { length mask.now ≡ length a.now }
    requires same_length { length a.now ≡ length b.now }
    ensures { IfOk result (λ r. r ≡ select_all mask.now a.now b.now) }
{
    prove!(a.len() == b.len());
    let truth = select_bits(alloc, mask.truth(), a.truth(), b.truth())?;
    let valid = select_bits(alloc, mask.truth(), a.valid(), b.valid())?;
    BooleanArray::masked(alloc, &truth, valid)
}

/// The string of row `i` of the first where the mask is true, else of the second.
fn selected_string<'a>(
    mask: &Bitmap,
    a: &'a StringArray,
    b: &'a StringArray,
    i: usize,
) -> Option<&'a str>
    requires mask { i < length mask.now }
    requires a { i < length a.now }
    requires b { i < length b.now }
    ensures { string_row (option_copied result)
        ≡ select_row (get_or mask.now i false) (get_or a.now i None) (get_or b.now i None) }
{
    if mask.get(i) { a.get(i) } else { b.get(i) }
}

/// Row by row the first where the mask is true, else the second.
fn select_strings(
    alloc: Global,
    mask: &BooleanArray,
    a: &StringArray,
    b: &StringArray,
) -> Result<StringArray, PlanError>
    requires mask { length mask.now ≡ length a.now }
    requires same_length { length a.now ≡ length b.now }
    ensures { GivesOrMemory result (select_all mask.now a.now b.now) }
{
    let len = a.len();
    let flags = mask.truth();
    let mut rows = StringArrayBuilder::with_capacity(alloc, len)?;
    for i in 0..len {
        rows.push(selected_string(flags, a, b, i))?;
    }
    rows.finish()
}

/// Row by row the first where the mask is true, else the second, of two buffers of one type.
fn selected_rows(
    alloc: Global,
    mask: &BooleanArray,
    a: &Buffer,
    b: &Buffer,
) -> Result<Buffer, PlanError>
    requires same { type_of a.now ≡ type_of b.now }
    requires mask { length mask.now ≡ length (rows_of a.now) }
    requires same_length { length (rows_of a.now) ≡ length (rows_of b.now) }
    ensures value_type { IfOk result (λ r. type_of r ≡ type_of a.now) }
    ensures rows { IfOk result (λ r. rows_of r ≡ select_all mask.now (rows_of a.now) (rows_of b.now)) }
    ensures err { IfErr result (λ e. e ≡ PlanError.OutOfMemory) }
{
    integers!((a, b) {
        (Buffer::Null(len), Buffer::Null(_)) => Ok(Buffer::Null(*len)),
        (Buffer::Boolean(a), Buffer::Boolean(b)) => Ok(Buffer::Boolean(select_booleans(alloc, mask, a, b)?)),
        (Buffer::String(a), Buffer::String(b)) => Ok(Buffer::String(select_strings(alloc, mask, a, b)?)),
    } => Buffer select_integers(alloc, mask, a, b))
}

/// The same under a Boolean buffer as the mask.
fn selected_by_mask(
    alloc: Global,
    mask: &Buffer,
    a: &Buffer,
    b: &Buffer,
) -> Result<Buffer, PlanError>
    requires boolean { IsBoolean (type_of mask.now) }
    requires same { type_of a.now ≡ type_of b.now }
    requires mask { length (rows_of mask.now) ≡ length (rows_of a.now) }
    requires same_length { length (rows_of a.now) ≡ length (rows_of b.now) }
    ensures value_type { IfOk result (λ r. type_of r ≡ type_of a.now) }
    ensures rows { IfOk result (λ r. rows_of r ≡ select_all (rows_of mask.now) (rows_of a.now) (rows_of b.now)) }
    ensures err { IfErr result (λ e. e ≡ PlanError.OutOfMemory) }
{
    match mask {
        Buffer::Boolean(rows) => selected_rows(alloc, rows, a, b),
        _ => unreachable!(),
    }
}

/// Row by row the row of `a` where the mask is true, else that of `b`: two buffers of one type under a
/// Boolean mask. A buffer of one row goes with each row of the others. `ShapeMismatch` where the three
/// lengths do not broadcast.
pub fn zip_with_buffers(
    alloc: Global,
    mask: &Buffer,
    a: &Buffer,
    b: &Buffer,
) -> Result<Buffer, PlanError>
    requires mask { IsBoolean (type_of mask.now) }
    requires same { type_of a.now ≡ type_of b.now }
    ensures rows { GivesOr PlanError.ShapeMismatch (λ c. values_of c) result
        (select_rows (values_of mask.now) (values_of a.now) (values_of b.now)) }
{
    let Some(len) = join_three_lengths(mask.len(), a.len(), b.len()) else {
        return Err(PlanError::ShapeMismatch);
    };
    let flags = broadcast(alloc, mask, len)?;
    let first = broadcast(alloc, a, len)?;
    let second = broadcast(alloc, b, len)?;
    selected_by_mask(
        alloc,
        wide_or(&flags, mask),
        wide_or(&first, a),
        wide_or(&second, b),
    )
}

/// The same of columns, under the name of `a`.
pub fn zip_with(alloc: Global, mask: &Column, a: &Column, b: &Column) -> Result<Column, PlanError>
    requires mask { IsBoolean mask.now.values.value_type }
    requires same { a.now.values.value_type ≡ b.now.values.value_type }
    ensures name { IfOk result (λ c. c.name ≡ a.now.name) }
    ensures rows { GivesOr PlanError.ShapeMismatch (λ c. c.values) result
        (select_rows mask.now.values a.now.values b.now.values) }
{
    let buffer = zip_with_buffers(alloc, mask.buffer(), a.buffer(), b.buffer())?;
    let name = a.name().try_clone(alloc)?;
    Ok(Column::new(name, buffer))
}
