//! Rows at given positions. A position past the end is a null.
ghost use Rattle.std.specs.Prelude.{◌≡◌, ◌<◌, ◌^◌, length, get_or, false, None, IfOk, IfErr};
ghost use Rattle.std.specs.Option.{option_copied};
ghost use Rattle.px_base.specs.Answer.{GivesOrMemory};
ghost use Rattle.px_semantics.specs.Rows.{string_row};
ghost use Rattle.px_selection.specs.Positions.{at_positions};
ghost use Rattle.px_column.specs.ColumnOf.{type_of, rows_of};

use px_arrays::{Bitmap, BooleanArray, IntegerArray, StringArray, StringArrayBuilder};
use px_column::Buffer;
use px_integers::Integer;
use px_types::PlanError;
use std::alloc::{AllocError, Global};

/// The number at a position, and `other` past the end.
#[tactic(auto, using(std::proofs::lemmas::List::get_or_past, std::proofs::lemmas::List::get_or_default))]
fn value_or<T: Integer>(values: &[T], position: u32, other: T) -> T
    ensures { result ≡ get_or values.now position other }
{
    let position = position as usize;
    if position < values.len() {
        values[position]
    } else {
        other
    }
}

/// The number at each position, and `other` at a position past the end.
fn take_values<T: Integer>(
    alloc: Global,
    values: &[T],
    other: T,
    positions: &[u32],
) -> Result<Vec<T>, AllocError>
    ensures { IfOk result (λ v. v.items ≡ at_positions other values.now positions.now) }
{
    positions
        .iter()
        .map(|position| value_or(values, *position, other))
        .collect(alloc)
}

/// The bit at a position, not set past the end.
#[tactic(auto, using(std::proofs::lemmas::List::get_or_past))]
fn bit_at(bits: &Bitmap, position: u32) -> bool
    ensures { result ≡ get_or bits.now position false }
{
    let position = position as usize;
    if position < bits.len() {
        bits.get(position)
    } else {
        false
    }
}

/// The bit at each position.
fn take_flags(alloc: Global, bits: &Bitmap, positions: &[u32]) -> Result<Vec<bool>, AllocError>
    ensures { IfOk result (λ v. v.items ≡ at_positions false bits.now positions.now) }
{
    positions
        .iter()
        .map(|position| bit_at(bits, *position))
        .collect(alloc)
}

/// The bit at each position.
fn take_bits(alloc: Global, bits: &Bitmap, positions: &[u32]) -> Result<Bitmap, AllocError>
    requires { length positions.now < 2 ^ 32 }
    ensures { IfOk result (λ b. b ≡ at_positions false bits.now positions.now) }
{
    let flags = take_flags(alloc, bits, positions)?;
    Bitmap::from_bools(alloc, flags.as_slice())
}

/// The row at each position.
fn take_integers<T: Integer>(
    alloc: Global,
    a: &IntegerArray<T>,
    positions: &[u32],
) -> Result<IntegerArray<T>, AllocError>
    requires { length positions.now < 2 ^ 32 }
    ensures { IfOk result (λ r. r ≡ at_positions None a.now positions.now) }
{
    let numbers = take_values(alloc, a.values(), T::zero(), positions)?;
    let valid = take_bits(alloc, a.valid(), positions)?;
    Ok(IntegerArray::from_parts(numbers, valid))
}

/// The row at each position.
fn take_booleans(
    alloc: Global,
    a: &BooleanArray,
    positions: &[u32],
) -> Result<BooleanArray, AllocError>
    requires { length positions.now < 2 ^ 32 }
    ensures { IfOk result (λ r. r ≡ at_positions None a.now positions.now) }
{
    prove!(a.len() <= u32::MAX as usize);
    let truth = take_bits(alloc, a.truth(), positions)?;
    let valid = take_bits(alloc, a.valid(), positions)?;
    BooleanArray::masked(alloc, &truth, valid)
}

/// The string of a row, and None where it is null or past the end.
#[tactic(auto, using(std::proofs::lemmas::List::get_or_past))]
fn string_at(a: &StringArray, position: u32) -> Option<&str>
    ensures { string_row (option_copied result) ≡ get_or a.now position None }
{
    let position = position as usize;
    if position < a.len() {
        a.get(position)
    } else {
        None
    }
}

/// The row at each position.
fn take_strings(alloc: Global, a: &StringArray, positions: &[u32]) -> Result<StringArray, PlanError>
    requires { length positions.now < 2 ^ 32 }
    ensures { GivesOrMemory result (at_positions None a.now positions.now) }
{
    let mut rows = StringArrayBuilder::with_capacity(alloc, positions.len())?;
    for position in positions {
        rows.push(string_at(a, *position))?;
    }
    rows.finish()
}

/// The row of a buffer at each position, fewer than 2^32.
pub fn take_rows(alloc: Global, a: &Buffer, positions: &[u32]) -> Result<Buffer, PlanError>
    requires { length positions.now < 2 ^ 32 }
    ensures value_type { IfOk result (λ r. type_of r ≡ type_of a.now) }
    ensures rows { IfOk result (λ r. rows_of r ≡ at_positions None (rows_of a.now) positions.now) }
    ensures err { IfErr result (λ e. e ≡ PlanError.OutOfMemory) }
{
    match a {
        Buffer::Null(_) => Ok(Buffer::Null(positions.len() as u32)),
        Buffer::Boolean(rows) => Ok(Buffer::Boolean(take_booleans(alloc, rows, positions)?)),
        Buffer::String(rows) => Ok(Buffer::String(take_strings(alloc, rows, positions)?)),
        Buffer::Int8(rows) => Ok(Buffer::Int8(take_integers(alloc, rows, positions)?)),
        Buffer::Int16(rows) => Ok(Buffer::Int16(take_integers(alloc, rows, positions)?)),
        Buffer::Int32(rows) => Ok(Buffer::Int32(take_integers(alloc, rows, positions)?)),
        Buffer::Int64(rows) => Ok(Buffer::Int64(take_integers(alloc, rows, positions)?)),
        Buffer::UInt8(rows) => Ok(Buffer::UInt8(take_integers(alloc, rows, positions)?)),
        Buffer::UInt16(rows) => Ok(Buffer::UInt16(take_integers(alloc, rows, positions)?)),
        Buffer::UInt32(rows) => Ok(Buffer::UInt32(take_integers(alloc, rows, positions)?)),
        Buffer::UInt64(rows) => Ok(Buffer::UInt64(take_integers(alloc, rows, positions)?)),
    }
}
