//! A list of numbers of one integer type, each of which may be null.
ghost use Rattle.std.specs.Prelude.{◌≡◌, ◌<◌, ◌^◌, ◌⊎◌, length, map, get_or, replicate, Some, None, is_some, IfOk, IfErr, IfSome, IsSome, ◌↔◌, option_map};
ghost use Rattle.px_base.specs.Answer.{GivesOr};
ghost use Rattle.std.specs.Simd.Lanes.{zip2, Each1};
ghost use Rattle.px_semantics.specs.Bitwise.{bitwise, complement};
ghost use Rattle.px_types.specs.Integers.{InRange};
ghost use Rattle.px_semantics.specs.Logic.{word_of, IsLogic};
ghost use Rattle.px_semantics.specs.Rows.{lift, on_integer, integer_row, elementwise, AllInRange, IsRowOf};

use crate::bitmap::Bitmap;
use crate::integer_array_builder::IntegerArrayBuilder;
use crate::loops::{complements, copies, elementwise_values, scalar_on_left, scalar_on_right};
use px_integers::{BitAnd, BitOr, BitXor, Integer, Operation};
use px_types::{Operator, PlanError};
use std::alloc::{AllocError, Global};
use std::marker::Model;

/// Fewer than 2^32 rows. Where bit i of `valid` is not set the row is null, and value i means
/// nothing.
#[derive(Drop)]
pub struct IntegerArray<T: Integer> {
    values: Vec<T>,
    valid: Bitmap,
}

impl<T: Integer> Model for IntegerArray<T> {
    ghost use Rattle.std.specs.Prelude.{List, map};
    ghost use Rattle.std.specs.Simd.Lanes.{zip2};
    ghost use Rattle.px_semantics.specs.Rows.{Row, entry};
    ghost use Rattle.px_arrays.specs.IntegerArrayOf.{IsIntegerArray};

    ghost Value = { List Row };

    ghost view = { λ a. zip2 entry a.valid (map T.integer a.values.items) };

    ghost invariant = { λ a. IsIntegerArray T.value_type a.valid (map T.integer a.values.items) };
}

/// The row of a value. None where the value is outside the type.
fn row_from<T: Integer>(value: Option<i128>) -> Option<Option<T>>
    ensures row { IfSome result (λ row. integer_row (option_map T.integer row) ≡ integer_row value) }
    ensures inside { IsSome result ↔ IfSome value (InRange T.value_type) }
{
    match value {
        Some(wide) => match T::from_wide(wide) {
            Some(number) => Some(Some(number)),
            None => None,
        },
        None => Some(None),
    }
}

impl<T: Integer> IntegerArray<T> {
    ghost use Rattle.std.specs.Prelude.{ℤ, Bool};
    ghost use Rattle.px_semantics.specs.Rows.{entry};
    ghost use Rattle.px_arrays.specs.IntegerArrayOf.{IsIntegerArray};

    /// The values as rows, null where `valid` is not set. There are as many values as bits.
    pub fn from_parts(values: Vec<T>, valid: Bitmap) -> IntegerArray<T>
        requires { IsIntegerArray T.value_type valid (map T.integer values.items) }
        ensures { result ≡ zip2 entry valid (map T.integer values.items) }
    {
        IntegerArray { values, valid }
    }

    /// These values as rows of the type, of which there are fewer than 2^32; None is a null. None
    /// is answered where one of them is outside the type. The only error is out of memory.
    pub fn from_options(
        alloc: Global,
        values: &[Option<i128>],
    ) -> Result<Option<IntegerArray<T>>, PlanError>
        requires { length values.now < 2 ^ 32 }
        ensures rows { IfOk result (λ o. IfSome o (λ r. r ≡ map integer_row values.now)) }
        ensures inside { IfOk result (λ o. IsSome o ↔ AllInRange T.value_type values.now) }
        ensures err { IfErr result (λ e. e ≡ PlanError.OutOfMemory) }
    {
        let mut rows = IntegerArrayBuilder::with_capacity(alloc, values.len())?;
        for value in values {
            let Some(row) = row_from::<T>(*value) else {
                return Ok(None);
            };
            rows.push(row)?;
        }
        Ok(Some(rows.finish()?))
    }

    /// The number of rows, which is below 2^32.
    pub fn len(&self) -> usize
        ensures rows { result ≡ length self.now }
        ensures below_limit { result < 2 ^ 32 }
        ensures typed { Each1 (IsRowOf T.value_type) self.now }
    {
        self.valid.len()
    }

    /// Row `i`, which is below the length: None where it is null.
    pub fn get(&self, i: usize) -> Option<T>
        requires { i < length self.now }
        ensures { integer_row (option_map T.integer result) ≡ get_or self.now i None }
    {
        if self.valid.get(i) {
            Some(self.values[i])
        } else {
            None
        }
    }

    /// The same rows.
    pub fn try_clone(&self, alloc: Global) -> Result<IntegerArray<T>, AllocError>
        ensures { IfOk result (λ r. r ≡ self.now) }
    {
        let values = Vec::from_slice(alloc, self.values.as_slice())?;
        let valid = self.valid.try_clone(alloc)?;
        Ok(IntegerArray { values, valid })
    }

    /// The one row `len` times, fewer than 2^32.
    pub fn repeated(&self, alloc: Global, len: usize) -> Result<IntegerArray<T>, AllocError>
        requires one_row { length self.now ≡ 1 }
        requires below_limit { len < 2 ^ 32 }
        ensures { IfOk result (λ r. r ≡ replicate len (get_or self.now 0 None)) }
    {
        let values = copies(alloc, self.values[0], len)?;
        let valid = Bitmap::filled(alloc, len, self.valid.get(0))?;
        Ok(IntegerArray { values, valid })
    }

    /// The values, one for each row. Where a row is null, its value means nothing.
    pub fn values(&self) -> &[T]
        ensures same_length { length result.now ≡ length self.now }
        ensures entries { zip2 entry (map is_some self.now) (map T.integer result.now) ≡ self.now }
        ensures inside { Each1 (InRange T.value_type) (map T.integer result.now) }
    {
        self.values.as_slice()
    }

    /// Which rows are not null.
    pub fn valid(&self) -> &Bitmap
        ensures { result.now ≡ map is_some self.now }
    {
        &self.valid
    }

    /// Row by row the operation on as many rows.
    fn combine_elementwise<O: Operation<T>>(
        &self,
        alloc: Global,
        other: &IntegerArray<T>,
    ) -> Result<IntegerArray<T>, AllocError>
        requires { length self.now ≡ length other.now }
        ensures { IfOk result (λ r. r ≡ zip2 (lift O.meaning) self.now other.now) }
    {
        let values = elementwise_values::<T, O>(
            alloc,
            self.values.as_slice(),
            other.values.as_slice(),
        )?;
        let valid = self.valid.and(alloc, &other.valid)?;
        Ok(IntegerArray { values, valid })
    }

    /// Row by row the operation on the one row and each row of the other.
    fn combine_scalar_on_left<O: Operation<T>>(
        &self,
        alloc: Global,
        other: &IntegerArray<T>,
    ) -> Result<IntegerArray<T>, AllocError>
        requires { length self.now ≡ 1 }
        ensures { IfOk result (λ r. r ≡ map (lift O.meaning (get_or self.now 0 None)) other.now) }
    {
        let values = scalar_on_left::<T, O>(alloc, self.values[0], other.values.as_slice())?;
        let valid = other.valid.and_bit(alloc, self.valid.get(0))?;
        Ok(IntegerArray { values, valid })
    }

    /// Row by row the operation on each row and the one row of the other.
    fn combine_scalar_on_right<O: Operation<T>>(
        &self,
        alloc: Global,
        other: &IntegerArray<T>,
    ) -> Result<IntegerArray<T>, AllocError>
        requires { length other.now ≡ 1 }
        ensures { IfOk result (λ r. r ≡ map (λ row. lift O.meaning row (get_or other.now 0 None)) self.now) }
    {
        let values = scalar_on_right::<T, O>(alloc, self.values.as_slice(), other.values[0])?;
        let valid = self.valid.and_bit(alloc, other.valid.get(0))?;
        Ok(IntegerArray { values, valid })
    }

    /// Row by row the operation, null where one is null. One row goes with each row of the other
    /// side. `ShapeMismatch` where the lengths do not broadcast. Else the only error is out of
    /// memory.
    pub fn combine<O: Operation<T>>(
        &self,
        alloc: Global,
        other: &IntegerArray<T>,
    ) -> Result<IntegerArray<T>, PlanError>
        ensures rows { GivesOr PlanError.ShapeMismatch (λ r. r) result
            (elementwise (lift O.meaning) self.now other.now) }
    {
        let m = self.len();
        let n = other.len();
        if m == n {
            return Ok(self.combine_elementwise::<O>(alloc, other)?);
        }
        if m == 1 {
            return Ok(self.combine_scalar_on_left::<O>(alloc, other)?);
        }
        if n == 1 {
            return Ok(self.combine_scalar_on_right::<O>(alloc, other)?);
        }
        Err(PlanError::ShapeMismatch)
    }

    /// Row by row `And`, `Or` or `Xor`, bit by bit, null where one is null. One row goes with each
    /// row of the other side. `ShapeMismatch` where the lengths do not broadcast. Else the only
    /// error is out of memory.
    pub fn logic(
        &self,
        alloc: Global,
        op: Operator,
        other: &IntegerArray<T>,
    ) -> Result<IntegerArray<T>, PlanError>
        requires { IsLogic op }
        ensures rows { GivesOr PlanError.ShapeMismatch (λ r. r) result
            (elementwise (lift (bitwise (word_of op) T.value_type)) self.now other.now) }
    {
        match op {
            Operator::And => self.combine::<BitAnd>(alloc, other),
            Operator::Or => self.combine::<BitOr>(alloc, other),
            Operator::Xor => self.combine::<BitXor>(alloc, other),
            _ => unreachable!(),
        }
    }

    /// Row by row the complement in the bits of the type, null kept.
    pub fn complement(&self, alloc: Global) -> Result<IntegerArray<T>, AllocError>
        ensures { IfOk result (λ r. r ≡ map (on_integer (complement T.value_type)) self.now) }
    {
        let values = complements(alloc, self.values.as_slice())?;
        let valid = self.valid.try_clone(alloc)?;
        Ok(IntegerArray { values, valid })
    }
}
