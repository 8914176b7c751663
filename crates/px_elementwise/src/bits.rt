//! Counts of the bits of Booleans and integers.
ghost use Rattle.std.specs.Prelude.{◌≡◌, ◌⊎◌, map, pos, IfOk};
ghost use Rattle.px_base.specs.Answer.{GivesOrMemory, GivesSeen};
ghost use Rattle.px_types.specs.Integers.{into, InRange, IsInteger};
ghost use Rattle.px_types.specs.declared.value_type.ValueType.TheVariants.{Boolean, UInt32};
ghost use Rattle.px_semantics.specs.Bits.{IsBitCount, count_boolean, count_integer, bit_count_row, bit_count_rows};
ghost use Rattle.px_semantics.specs.Rows.{IsBoolean};
ghost use Rattle.px_column.specs.ColumnOf.{type_of, rows_of};
ghost use Rattle.px_column.specs.Buffers.{values_of};

use crate::arms::integers;
use px_arrays::{Bitmap, BooleanArray, IntegerArray};
use px_column::{Buffer, Column};
use px_integers::Integer;
use px_types::{BitwiseFunction, PlanError};
use std::alloc::{AllocError, Global};

/// An integer whose bits are counted.
trait Bits: Integer {
    /// So many bits as the function counts, in two's complement. 0 where it counts none.
    fn bit_count(self, function: BitwiseFunction) -> u32
        ensures value { result ≡ count_integer function Self.value_type (Self.integer self) }
        ensures inside { InRange UInt32 (pos result) };
}

impl Bits for u8 {
    fn bit_count(self, function: BitwiseFunction) -> u32 {
        match function {
            BitwiseFunction::CountOnes => self.count_ones(),
            BitwiseFunction::CountZeros => self.count_zeros(),
            BitwiseFunction::LeadingOnes => self.leading_ones(),
            BitwiseFunction::LeadingZeros => self.leading_zeros(),
            BitwiseFunction::TrailingOnes => self.trailing_ones(),
            BitwiseFunction::TrailingZeros => self.trailing_zeros(),
            BitwiseFunction::And | BitwiseFunction::Or | BitwiseFunction::Xor => 0,
        }
    }
}

impl Bits for u16 {
    fn bit_count(self, function: BitwiseFunction) -> u32 {
        match function {
            BitwiseFunction::CountOnes => self.count_ones(),
            BitwiseFunction::CountZeros => self.count_zeros(),
            BitwiseFunction::LeadingOnes => self.leading_ones(),
            BitwiseFunction::LeadingZeros => self.leading_zeros(),
            BitwiseFunction::TrailingOnes => self.trailing_ones(),
            BitwiseFunction::TrailingZeros => self.trailing_zeros(),
            BitwiseFunction::And | BitwiseFunction::Or | BitwiseFunction::Xor => 0,
        }
    }
}

impl Bits for u32 {
    fn bit_count(self, function: BitwiseFunction) -> u32 {
        match function {
            BitwiseFunction::CountOnes => self.count_ones(),
            BitwiseFunction::CountZeros => self.count_zeros(),
            BitwiseFunction::LeadingOnes => self.leading_ones(),
            BitwiseFunction::LeadingZeros => self.leading_zeros(),
            BitwiseFunction::TrailingOnes => self.trailing_ones(),
            BitwiseFunction::TrailingZeros => self.trailing_zeros(),
            BitwiseFunction::And | BitwiseFunction::Or | BitwiseFunction::Xor => 0,
        }
    }
}

impl Bits for u64 {
    fn bit_count(self, function: BitwiseFunction) -> u32 {
        match function {
            BitwiseFunction::CountOnes => self.count_ones(),
            BitwiseFunction::CountZeros => self.count_zeros(),
            BitwiseFunction::LeadingOnes => self.leading_ones(),
            BitwiseFunction::LeadingZeros => self.leading_zeros(),
            BitwiseFunction::TrailingOnes => self.trailing_ones(),
            BitwiseFunction::TrailingZeros => self.trailing_zeros(),
            BitwiseFunction::And | BitwiseFunction::Or | BitwiseFunction::Xor => 0,
        }
    }
}

impl Bits for i8 {
    fn bit_count(self, function: BitwiseFunction) -> u32 {
        self.cast_unsigned().bit_count(function)
    }
}

impl Bits for i16 {
    fn bit_count(self, function: BitwiseFunction) -> u32 {
        self.cast_unsigned().bit_count(function)
    }
}

impl Bits for i32 {
    fn bit_count(self, function: BitwiseFunction) -> u32 {
        self.cast_unsigned().bit_count(function)
    }
}

impl Bits for i64 {
    fn bit_count(self, function: BitwiseFunction) -> u32 {
        self.cast_unsigned().bit_count(function)
    }
}

/// Place by place the count.
fn counted_values<T: Bits>(
    alloc: Global,
    function: BitwiseFunction,
    values: &[T],
) -> Result<Vec<u32>, AllocError>
    ensures values { IfOk result (λ v. map pos v.items
        ≡ map (λ z. pos (count_integer function T.value_type z)) (map T.integer values.now)) }
    ensures inside { IfOk result (λ v. map (λ n. into UInt32 (pos n)) v.items
        ≡ map (λ z. pos (count_integer function T.value_type z)) (map T.integer values.now)) }
{
    values.iter().map(|x| x.bit_count(function)).collect(alloc)
}

/// Row by row the count, null kept.
fn counted_integers<T: Bits>(
    alloc: Global,
    function: BitwiseFunction,
    a: &IntegerArray<T>,
) -> Result<IntegerArray<u32>, AllocError>
    ensures { IfOk result (λ r. r ≡ map (bit_count_row function T.value_type) a.now) }
{
    let valid = a.valid().try_clone(alloc)?;
    let values = counted_values(alloc, function, a.values())?;
    Ok(IntegerArray::from_parts(values, valid))
}

/// The count of one bit.
fn counted_bit(function: BitwiseFunction, bit: bool) -> u32
    ensures { result ≡ count_boolean function bit }
{
    match function {
        BitwiseFunction::CountOnes | BitwiseFunction::LeadingOnes | BitwiseFunction::TrailingOnes =>
            u32::from(bit),
        BitwiseFunction::CountZeros
        | BitwiseFunction::LeadingZeros
        | BitwiseFunction::TrailingZeros => u32::from(!bit),
        BitwiseFunction::And | BitwiseFunction::Or | BitwiseFunction::Xor => 0,
    }
}

/// Place by place the count of the one bit.
fn counted_bits(
    alloc: Global,
    function: BitwiseFunction,
    bits: &Bitmap,
) -> Result<Vec<u32>, AllocError>
    ensures { IfOk result (λ v. v.items ≡ map (count_boolean function) bits.now) }
{
    (0..bits.len())
        .map(|i| counted_bit(function, bits.get(i)))
        .collect(alloc)
}

/// Row by row the count of the one bit, null kept.
fn counted_booleans(
    alloc: Global,
    function: BitwiseFunction,
    a: &BooleanArray,
) -> Result<IntegerArray<u32>, AllocError>
    ensures { IfOk result (λ r. r ≡ map (bit_count_row function Boolean) a.now) }
{
    prove!(a.len() == a.valid().len());
    let valid = a.valid().try_clone(alloc)?;
    let values = counted_bits(alloc, function, a.truth())?;
    Ok(IntegerArray::from_parts(values, valid))
}

/// Row by row the count, null kept.
fn counted_rows(
    alloc: Global,
    function: BitwiseFunction,
    a: &Buffer,
) -> Result<IntegerArray<u32>, AllocError>
    requires { IsBoolean (type_of a.now) ⊎ IsInteger (type_of a.now) }
    ensures { IfOk result (λ r. r ≡ map (bit_count_row function (type_of a.now)) (rows_of a.now)) }
{
    integers!(a {
        Buffer::Boolean(rows) => counted_booleans(alloc, function, rows),
    } => counted_integers(alloc, function, a))
}

/// Row by row the count of the bits of a buffer of Booleans or of an integer type, null kept: as many rows
/// of the type `UInt32`. A Boolean has one bit, and an integer is in two's complement. The only error is out
/// of memory. As Polars' `bitwise_count_ones` and its kin.
pub fn bit_count_buffer(
    alloc: Global,
    function: BitwiseFunction,
    a: &Buffer,
) -> Result<Buffer, PlanError>
    requires count { IsBitCount function }
    requires operand { IsBoolean (type_of a.now) ⊎ IsInteger (type_of a.now) }
    ensures { GivesSeen (λ c. values_of c) result (bit_count_rows function (values_of a.now)) }
{
    let rows = counted_rows(alloc, function, a)?;
    Ok(Buffer::UInt32(rows))
}

/// The same of a column, under its name.
pub fn bit_count(alloc: Global, function: BitwiseFunction, a: &Column) -> Result<Column, PlanError>
    requires count { IsBitCount function }
    requires operand { IsBoolean a.now.values.value_type ⊎ IsInteger a.now.values.value_type }
    ensures { GivesOrMemory result
        (record { name = a.now.name; values = bit_count_rows function a.now.values }) }
{
    let buffer = bit_count_buffer(alloc, function, a.buffer())?;
    let name = a.name().try_clone(alloc)?;
    Ok(Column::new(name, buffer))
}
