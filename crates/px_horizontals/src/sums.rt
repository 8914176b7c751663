//! The sum of each place across columns.
ghost use Rattle.std.specs.Prelude.{◌≡◌, ◌⊎◌, ◌<◌, pos, Some, false, true, length, replicate, option_map, IfOk, IfErr};
ghost use Rattle.std.specs.Simd.Lanes.{zip2};
ghost use Rattle.px_base.specs.Answer.{GivesOr, GivesOrMemory};
ghost use Rattle.px_types.specs.Integers.{into, IsInteger};
ghost use Rattle.px_types.specs.declared.value_type.ValueType.TheVariants.{UInt32};
ghost use Rattle.px_semantics.specs.Aggregates.{number_of};
ghost use Rattle.px_semantics.specs.Horizontals.{sum_horizontal_rows, sum_horizontal_type};
ghost use Rattle.px_semantics.specs.Rows.{IntegerValue, IsBoolean, boolean_row, integer_row, stretch};
ghost use Rattle.px_column.specs.Buffers.{values_of};
ghost use Rattle.px_column.specs.ColumnOf.{type_of, rows_of};
ghost use Rattle.px_horizontals.specs.Inputs.{values_of_buffers, values_of_columns, first_type, first_name, HaveType};
ghost use Rattle.px_horizontals.specs.Sums.{added_number, added, SumsUp};

use crate::arms::integers;
use crate::folds::{Fold, buffers_of, folded_onto, joined_length, named};
use crate::places::place_in;
use px_aggregates::one_integer;
use px_arrays::{BooleanArray, IntegerArray, IntegerArrayBuilder};
use px_column::{Buffer, Column};
use px_integers::{Integer, Residue};
use px_types::{PlanError, ValueType};
use std::alloc::Global;

/// The sum, null where a row is.
struct SumOfAll;

/// The sum of the rows that are not null.
struct SumOfValues;

/// The sum so far and one number more. Without a number None, or the sum where nulls are ignored.
fn added_integer<T: Integer>(ignore_nulls: bool, total: Option<T>, number: Option<T>) -> Option<T>
    ensures { integer_row (option_map T.integer result)
        ≡ added_number ignore_nulls T.value_type (integer_row (option_map T.integer total))
        (option_map T.integer number) }
{
    match (total, number) {
        (Some(total), Some(number)) => Some(total.plus(number)),
        (None, Some(_)) => None,
        (_, None) => { if ignore_nulls { total } else { None } }
    }
}

/// Row by row the sum so far and one integer more. The second has as many rows as the first, or one.
fn added_integers<T: Integer>(
    alloc: Global,
    ignore_nulls: bool,
    a: &IntegerArray<T>,
    b: &IntegerArray<T>,
) -> Result<IntegerArray<T>, PlanError>
    requires { (length b.now ≡ 1) ⊎ (length b.now ≡ length a.now) }
    ensures { GivesOrMemory result (zip2 (added ignore_nulls T.value_type) a.now (stretch (length a.now) b.now)) }
{
    let count = a.len();
    let other = b.len();
    let mut rows = IntegerArrayBuilder::with_capacity(alloc, count)?;
    for i in 0..count {
        let second = b.get(place_in(other, i, count));
        rows.push(added_integer(ignore_nulls, a.get(i), second))?;
    }
    rows.finish()
}

/// The number of a Boolean: 1 of true, 0 of false.
fn number_of_boolean(row: Option<bool>) -> Option<u32>
    ensures { option_map pos result ≡ number_of (boolean_row row) }
{
    match row {
        Some(true) => Some(1),
        Some(false) => Some(0),
        None => None,
    }
}

/// Row by row the sum so far and one Boolean more. The second has as many rows as the first, or one.
fn added_booleans(
    alloc: Global,
    ignore_nulls: bool,
    a: &IntegerArray<u32>,
    b: &BooleanArray,
) -> Result<IntegerArray<u32>, PlanError>
    requires { (length b.now ≡ 1) ⊎ (length b.now ≡ length a.now) }
    ensures { GivesOrMemory result (zip2 (added ignore_nulls UInt32) a.now (stretch (length a.now) b.now)) }
{
    let count = a.len();
    let other = b.len();
    let mut rows = IntegerArrayBuilder::with_capacity(alloc, count)?;
    for i in 0..count {
        let second = b.get(place_in(other, i, count));
        rows.push(added_integer(ignore_nulls, a.get(i), number_of_boolean(second)))?;
    }
    rows.finish()
}

/// Row by row the sum so far and one row more, of Booleans or integers. The second has as many rows as the first, or
/// one. The only error is out of memory.
fn added_rows(
    alloc: Global,
    ignore_nulls: bool,
    a: &Buffer,
    b: &Buffer,
) -> Result<Buffer, PlanError>
    requires sums { SumsUp (type_of a.now) (type_of b.now) }
    requires long { (length (rows_of b.now) ≡ 1) ⊎ (length (rows_of b.now) ≡ length (rows_of a.now)) }
    ensures value_type { IfOk result (λ r. type_of r ≡ type_of a.now) }
    ensures rows { IfOk result (λ r. rows_of r ≡ zip2 (added ignore_nulls (type_of a.now)) (rows_of a.now)
        (stretch (length (rows_of a.now)) (rows_of b.now))) }
    ensures err { IfErr result (λ e. e ≡ PlanError.OutOfMemory) }
{
    integers!((a, b) {
        (Buffer::UInt32(a), Buffer::Boolean(b)) => Ok(Buffer::UInt32(added_booleans(alloc, ignore_nulls, a, b)?)),
    } => added_integers(alloc, ignore_nulls, a, b))
}

impl Fold for SumOfAll {
    ghost takes = { SumsUp };

    ghost step = { added false };

    fn combine(alloc: Global, total: &Buffer, input: &Buffer) -> Result<Buffer, PlanError> {
        added_rows(alloc, false, total, input)
    }
}

impl Fold for SumOfValues {
    ghost takes = { SumsUp };

    ghost step = { added true };

    fn combine(alloc: Global, total: &Buffer, input: &Buffer) -> Result<Buffer, PlanError> {
        added_rows(alloc, true, total, input)
    }
}

/// So many zeros.
fn zero_integers<T: Residue>(alloc: Global, len: u32) -> Result<IntegerArray<T>, PlanError>
    ensures { GivesOrMemory result (replicate len (Some (IntegerValue (into T.value_type (pos 0))))) }
{
    let zero = one_integer(alloc, Some(T::residue(0)))?;
    Ok(zero.repeated(alloc, len as usize)?)
}

/// So many zeros of the type of a sum of Booleans or integers. The only error is out of memory.
fn zeros(alloc: Global, value_type: ValueType, len: u32) -> Result<Buffer, PlanError>
    requires { IsBoolean value_type ⊎ IsInteger value_type }
    ensures value_type { IfOk result (λ r. type_of r ≡ sum_horizontal_type value_type) }
    ensures rows { IfOk result (λ r. rows_of r
        ≡ replicate len (Some (IntegerValue (into (sum_horizontal_type value_type) (pos 0))))) }
    ensures err { IfErr result (λ e. e ≡ PlanError.OutOfMemory) }
{
    match value_type {
        ValueType::Int8 => Ok(Buffer::Int8(zero_integers(alloc, len)?)),
        ValueType::Int16 => Ok(Buffer::Int16(zero_integers(alloc, len)?)),
        ValueType::Int32 => Ok(Buffer::Int32(zero_integers(alloc, len)?)),
        ValueType::Int64 => Ok(Buffer::Int64(zero_integers(alloc, len)?)),
        ValueType::UInt8 => Ok(Buffer::UInt8(zero_integers(alloc, len)?)),
        ValueType::UInt16 => Ok(Buffer::UInt16(zero_integers(alloc, len)?)),
        ValueType::UInt64 => Ok(Buffer::UInt64(zero_integers(alloc, len)?)),
        ValueType::UInt32 | ValueType::Boolean => Ok(Buffer::UInt32(zero_integers(alloc, len)?)),
        _ => unreachable!(),
    }
}

/// Place by place the sum, taken into the type: at least one buffer, all of one type, `Boolean` or an integer
/// type. Booleans count as 0 and 1 in the type `UInt32`. A null makes the sum null, unless nulls are ignored.
/// A buffer of one row goes with each row of the others. `ShapeMismatch` where the lengths do not broadcast.
/// Else the only error is out of memory. As Polars' `sum_horizontal`, but that all types are one.
pub fn sum_horizontal_buffers(
    alloc: Global,
    inputs: &[&Buffer],
    ignore_nulls: bool,
) -> Result<Buffer, PlanError>
    requires some { 0 < length inputs.now }
    requires operand { IsBoolean (first_type (values_of_buffers inputs.now))
        ⊎ IsInteger (first_type (values_of_buffers inputs.now)) }
    requires same { HaveType (first_type (values_of_buffers inputs.now)) (values_of_buffers inputs.now) }
    ensures { GivesOr PlanError.ShapeMismatch values_of result
        (sum_horizontal_rows (first_type (values_of_buffers inputs.now)) ignore_nulls
        (values_of_buffers inputs.now)) }
{
    let Some(len) = joined_length(inputs) else {
        return Err(PlanError::ShapeMismatch);
    };
    let start = zeros(alloc, inputs[0].value_type(), len)?;
    if ignore_nulls {
        folded_onto::<SumOfValues>(alloc, start, inputs)
    } else {
        folded_onto::<SumOfAll>(alloc, start, inputs)
    }
}

/// The same of columns, under the name of the first.
pub fn sum_horizontal(
    alloc: Global,
    inputs: &[Column],
    ignore_nulls: bool,
) -> Result<Column, PlanError>
    requires some { 0 < length inputs.now }
    requires operand { IsBoolean (first_type (values_of_columns inputs.now))
        ⊎ IsInteger (first_type (values_of_columns inputs.now)) }
    requires same { HaveType (first_type (values_of_columns inputs.now)) (values_of_columns inputs.now) }
    ensures name { IfOk result (λ c. c.name ≡ first_name inputs.now) }
    ensures rows { GivesOr PlanError.ShapeMismatch (λ c. c.values) result
        (sum_horizontal_rows (first_type (values_of_columns inputs.now)) ignore_nulls
        (values_of_columns inputs.now)) }
{
    let buffers = buffers_of(alloc, inputs)?;
    let buffer = sum_horizontal_buffers(alloc, buffers.as_slice(), ignore_nulls)?;
    named(alloc, inputs, buffer)
}
