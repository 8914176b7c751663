//! Casts of buffers and columns to other types.
ghost use Rattle.std.specs.Prelude.{◌≡◌, ◌≢◌, ◌⊎◌, ◌&&◌, length, map, replicate, get_or, cond, is_some, not, pos, true, Bool, Some, None, IfOk, IfErr, IsTrue};
ghost use Rattle.std.specs.Simd.Lanes.{zip2};
ghost use Rattle.px_base.specs.Answer.{GivesOrMemory, GivesOr};
ghost use Rattle.px_semantics.specs.Arithmetic.{is_zero};
ghost use Rattle.px_semantics.specs.Casts.{as_integer, as_boolean, cast_value, cast_row, cast_list, cast_to, any_lost, HasCast, IsScalar};
ghost use Rattle.px_types.specs.Integers.{into};
ghost use Rattle.px_semantics.specs.Rows.{Datum, Row};
ghost use Rattle.px_types.specs.ValueTypes.{holds, value_type_of};
ghost use Rattle.px_types.specs.declared.type_parts.CastOptions.{CastOptions};
ghost use Rattle.px_types.specs.declared.type_parts.CastOptions.TheVariants as option;
ghost use Rattle.px_types.specs.declared.value_type.ValueType.TheVariants as value_type;
ghost use Rattle.px_column.specs.ColumnOf.{type_of, rows_of};
ghost use Rattle.px_column.specs.Buffers.{values_of};
ghost use Rattle.px_kernels.specs.Casting.{number_in_range, bits_in_range, any_bit_lost, CastsAll};

use crate::arms::integers;
use crate::comparison::null_booleans;
use crate::zeros::nonzero_flags;
use px_arrays::{
    Bitmap, BooleanArray, IntegerArray, IntegerArrayBuilder, StringArray, StringArrayBuilder,
};
use px_column::{Buffer, Column};
use px_integers::{Integer, Residue};
use px_types::{CastOptions, DataType, PlanError, ValueType};
use std::alloc::{AllocError, Global};

/// Whether the type holds the number.
fn is_in_range<S: Integer, T: Integer>(x: S) -> bool
    ensures { result ≡ holds T.value_type (S.integer x) }
{
    T::from_wide(x.to_wide()).is_some()
}

/// The number where the type holds it, else 0.
fn in_range_or_zero<S: Integer, T: Integer>(x: S) -> T
    ensures { T.integer result ≡ number_in_range T.value_type (S.integer x) }
{
    match T::from_wide(x.to_wide()) {
        Some(y) => y,
        None => T::zero(),
    }
}

/// Whether the type holds all the numbers. Where it is wider this needs no pass over them.
fn are_in_range<S: Integer, T: Integer>(values: &[S]) -> bool
    ensures { IsTrue result → map (holds T.value_type) (map S.integer values.now) ≡ replicate (length values.now) true }
{
    values.iter().all(|x| is_in_range::<S, T>(*x))
}

/// Place by place whether the type holds the number.
fn in_range_flags<S: Integer, T: Integer>(
    alloc: Global,
    values: &[S],
) -> Result<Vec<bool>, AllocError>
    ensures { IfOk result (λ v. v.items ≡ map (holds T.value_type) (map S.integer values.now)) }
{
    values
        .iter()
        .map(|x| is_in_range::<S, T>(*x))
        .collect(alloc)
}

/// Place by place the number where the type holds it, else 0.
fn in_range_values<S: Integer, T: Integer>(
    alloc: Global,
    values: &[S],
) -> Result<Vec<T>, AllocError>
    ensures { IfOk result (λ v. map T.integer v.items ≡ map (number_in_range T.value_type) (map S.integer values.now)) }
{
    values
        .iter()
        .map(|x| in_range_or_zero::<S, T>(*x))
        .collect(alloc)
}

/// Place by place the residue.
fn residues<S: Integer, T: Residue>(alloc: Global, values: &[S]) -> Result<Vec<T>, AllocError>
    ensures { IfOk result (λ v. map T.integer v.items ≡ map (into T.value_type) (map S.integer values.now)) }
{
    values
        .iter()
        .map(|x| T::residue(x.to_wide()))
        .collect(alloc)
}

/// The valid places whose number the type holds.
fn in_range_validity<S: Integer, T: Integer>(
    alloc: Global,
    values: &[S],
    valid: &Bitmap,
) -> Result<Bitmap, AllocError>
    requires { length values.now ≡ length valid.now }
    ensures { IfOk result (λ b. b ≡ bits_in_range T.value_type valid.now (map S.integer values.now)) }
{
    if are_in_range::<S, T>(values) {
        return valid.try_clone(alloc);
    }
    prove!(valid.len() == values.len());
    let flags = in_range_flags::<S, T>(alloc, values)?;
    let places = Bitmap::from_bools(alloc, flags.as_slice())?;
    valid.and(alloc, &places)
}

/// Row by row the number, null where the type lacks it.
fn non_strict_integers<S: Integer, T: Integer>(
    alloc: Global,
    a: &IntegerArray<S>,
) -> Result<IntegerArray<T>, AllocError>
    ensures { IfOk result (λ r. r ≡ map (cast_row (as_integer option.NonStrict T.value_type)) a.now) }
{
    let numbers = a.values();
    let valid = in_range_validity::<S, T>(alloc, numbers, a.valid())?;
    let values = in_range_values::<S, T>(alloc, numbers)?;
    Ok(IntegerArray::from_parts(values, valid))
}

/// Row by row the residue, null kept.
fn wrapped_integers<S: Integer, T: Residue>(
    alloc: Global,
    a: &IntegerArray<S>,
) -> Result<IntegerArray<T>, AllocError>
    ensures { IfOk result (λ r. r ≡ map (cast_row (as_integer option.Overflowing T.value_type)) a.now) }
{
    let valid = a.valid().try_clone(alloc)?;
    let values = residues::<S, T>(alloc, a.values())?;
    Ok(IntegerArray::from_parts(values, valid))
}

/// Whether a bit of the first is not set in the second.
fn loses_bit(given: &Bitmap, kept: &Bitmap) -> bool
    requires { length given.now ≡ length kept.now }
    ensures { result ≡ any_bit_lost given.now kept.now }
{
    if given.words() == kept.words() {
        return false;
    }
    for i in 0..given.len() {
        if given.get(i) && !kept.get(i) {
            return true;
        }
    }
    false
}

/// Row by row the number. `InvalidCast` where the type lacks one.
fn strict_integers<S: Integer, T: Integer>(
    alloc: Global,
    a: &IntegerArray<S>,
) -> Result<IntegerArray<T>, PlanError>
    ensures rows { GivesOr PlanError.InvalidCast (λ r. r) result
        (cast_list option.Strict (as_integer option.Strict T.value_type) a.now) }
{
    let rows = non_strict_integers::<S, T>(alloc, a)?;
    if loses_bit(a.valid(), rows.valid()) {
        return Err(PlanError::InvalidCast);
    }
    Ok(rows)
}

/// The numbers in another integer type.
fn cast_integers<S: Integer, T: Residue>(
    alloc: Global,
    a: &IntegerArray<S>,
    options: CastOptions,
) -> Result<IntegerArray<T>, PlanError>
    ensures rows { GivesOr PlanError.InvalidCast (λ r. r) result
        (cast_list options (as_integer options T.value_type) a.now) }
{
    match options {
        CastOptions::Strict => strict_integers::<S, T>(alloc, a),
        CastOptions::NonStrict => Ok(non_strict_integers::<S, T>(alloc, a)?),
        CastOptions::Overflowing => Ok(wrapped_integers::<S, T>(alloc, a)?),
    }
}

/// 1 for true, 0 for false.
fn bit_as_integer<T: Residue>(bit: bool) -> T
    ensures { T.integer result ≡ cond bit (pos 1) (pos 0) }
{
    T::residue(i128::from(bit))
}

/// Place by place 1 where the bit is set, else 0.
fn bits_as_integers<T: Residue>(alloc: Global, bits: &Bitmap) -> Result<Vec<T>, AllocError>
    ensures { IfOk result (λ v. map T.integer v.items ≡ map (λ b. cond b (pos 1) (pos 0)) bits.now) }
{
    (0..bits.len())
        .map(|i| bit_as_integer::<T>(bits.get(i)))
        .collect(alloc)
}

/// Row by row 1 for true, 0 for false.
fn booleans_as_integers<T: Residue>(
    alloc: Global,
    a: &BooleanArray,
) -> Result<IntegerArray<T>, AllocError>
    ensures { IfOk result (λ r. (options : CastOptions) → CastsAll (as_integer options T.value_type) a.now r) }
{
    prove!(a.len() == a.valid().len());
    let values = bits_as_integers::<T>(alloc, a.truth())?;
    let valid = a.valid().try_clone(alloc)?;
    Ok(IntegerArray::from_parts(values, valid))
}

/// So many nulls.
fn null_integers<T: Integer>(alloc: Global, len: u32) -> Result<IntegerArray<T>, PlanError>
    ensures { GivesOrMemory result (replicate len None) }
{
    let mut row = IntegerArrayBuilder::with_capacity(alloc, 1)?;
    row.push(None)?;
    let row = row.finish()?;
    Ok(row.repeated(alloc, len as usize)?)
}

/// Row by row whether the number is not 0.
fn integers_as_booleans<T: Integer>(
    alloc: Global,
    a: &IntegerArray<T>,
) -> Result<BooleanArray, AllocError>
    ensures { IfOk result (λ r. CastsAll as_boolean a.now r) }
{
    let flags = nonzero_flags(alloc, a.values())?;
    let valid = a.valid().try_clone(alloc)?;
    BooleanArray::from_flags(alloc, flags.as_slice(), valid)
}

/// The rows in an integer type.
fn integers<T: Residue>(
    alloc: Global,
    a: &Buffer,
    options: CastOptions,
) -> Result<IntegerArray<T>, PlanError>
    requires { IsScalar (type_of a.now) }
    ensures rows { GivesOr PlanError.InvalidCast (λ r. r) result
        (cast_list options (as_integer options T.value_type) (rows_of a.now)) }
{
    integers!((a) {
        Buffer::Null(len) => null_integers(alloc, *len),
        Buffer::Boolean(rows) => Ok(booleans_as_integers(alloc, rows)?),
    } => cast_integers::<_, T>(alloc, a, options))
}

/// The rows, which are no Booleans, as Booleans.
fn as_booleans(alloc: Global, a: &Buffer) -> Result<BooleanArray, AllocError>
    requires scalar { IsScalar (type_of a.now) }
    requires other { type_of a.now ≢ value_type.Boolean }
    ensures { IfOk result (λ r. CastsAll as_boolean (rows_of a.now) r) }
{
    integers!((a) {
        Buffer::Null(len) => null_booleans(alloc, *len),
    } => integers_as_booleans(alloc, a))
}

/// As many nulls as rows. `InvalidCast` where a strict cast loses a value.
fn nulls(a: &Buffer, options: CastOptions) -> Result<Buffer, PlanError>
    ensures value_type { IfOk result (λ b. type_of b ≡ value_type.Null) }
    ensures rows { IfOk result (λ b. Some (rows_of b) ≡ cast_list options (λ _. None) (rows_of a.now)) }
    ensures err { IfErr result (λ e. (e ≡ PlanError.InvalidCast)
        × (cast_list options (λ _. None) (rows_of a.now) ≡ None)) }
{
    let len = a.len();
    if options == CastOptions::Strict && a.null_count() < len {
        return Err(PlanError::InvalidCast);
    }
    Ok(Buffer::Null(len))
}

/// So many nulls as rows of strings.
fn null_strings(alloc: Global, len: u32) -> Result<StringArray, PlanError>
    ensures { GivesOrMemory result (replicate len None) }
{
    let mut text = StringArrayBuilder::with_capacity(alloc, 1)?;
    text.push(None)?;
    let text = text.finish()?;
    text.repeated(alloc, len as usize)
}

/// The rows in another type, or in their own.
fn cast_values(
    alloc: Global,
    a: &Buffer,
    to: ValueType,
    options: CastOptions,
) -> Result<Buffer, PlanError>
    requires { HasCast (type_of a.now) (Some to) }
    ensures value_type { IfOk result (λ b. type_of b ≡ to) }
    ensures rows { GivesOr PlanError.InvalidCast (λ b. rows_of b) result
        (cast_list options (cast_value options to) (rows_of a.now)) }
{
    prove!(a.len() <= u32::MAX);
    if a.value_type() == to {
        return a.try_clone(alloc);
    }
    match to {
        ValueType::Null => nulls(a, options),
        ValueType::Boolean => Ok(Buffer::Boolean(as_booleans(alloc, a)?)),
        ValueType::Int8 => Ok(Buffer::Int8(integers(alloc, a, options)?)),
        ValueType::Int16 => Ok(Buffer::Int16(integers(alloc, a, options)?)),
        ValueType::Int32 => Ok(Buffer::Int32(integers(alloc, a, options)?)),
        ValueType::Int64 => Ok(Buffer::Int64(integers(alloc, a, options)?)),
        ValueType::UInt8 => Ok(Buffer::UInt8(integers(alloc, a, options)?)),
        ValueType::UInt16 => Ok(Buffer::UInt16(integers(alloc, a, options)?)),
        ValueType::UInt32 => Ok(Buffer::UInt32(integers(alloc, a, options)?)),
        ValueType::UInt64 => Ok(Buffer::UInt64(integers(alloc, a, options)?)),
        ValueType::String => Ok(Buffer::String(null_strings(alloc, a.len())?)),
    }
}

/// The rows of a buffer in another type. Null stays null, and the type `Null` has a cast to each value
/// type. `Boolean` is 0 or 1 as an integer, and an integer as `Boolean` tells whether it is not 0. A type
/// lacks the integers outside its range, and `Null` lacks every value: such a value gives null under
/// `NonStrict`. Under `Strict` it gives `InvalidCast`. Under `Overflowing` an integer gives its residue, and a
/// value cast to `Null` gives null. A cast to the buffer's own type changes nothing. The rule is our own, in
/// outline that of Polars' `cast` and `strict_cast`.
pub fn cast_buffer(
    alloc: Global,
    a: &Buffer,
    to: &DataType,
    options: CastOptions,
) -> Result<Buffer, PlanError>
    requires { HasCast (type_of a.now) (value_type_of to.now) }
    ensures rows { GivesOr PlanError.InvalidCast (λ c. values_of c) result
        (cast_to options to.now (values_of a.now)) }
{
    let Some(value_type) = to.value_type() else {
        unreachable!();
    };
    cast_values(alloc, a, value_type, options)
}

/// The same of a column, under its name.
pub fn cast(
    alloc: Global,
    a: &Column,
    to: &DataType,
    options: CastOptions,
) -> Result<Column, PlanError>
    requires { HasCast a.now.values.value_type (value_type_of to.now) }
    ensures name { IfOk result (λ c. c.name ≡ a.now.name) }
    ensures rows { GivesOr PlanError.InvalidCast (λ c. c.values) result (cast_to options to.now a.now.values) }
{
    let buffer = cast_buffer(alloc, a.buffer(), to, options)?;
    let name = a.name().try_clone(alloc)?;
    Ok(Column::new(name, buffer))
}
