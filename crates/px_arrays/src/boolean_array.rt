//! A list of Booleans, each of which may be null, in two bitmaps.
ghost use Rattle.std.specs.Prelude.{◌≡◌, ◌⊎◌, ◌<◌, ◌^◌, length, map, replicate, get_or, Some, None, is_some, unwrap_or, false, not, IfOk, IfErr};
ghost use Rattle.px_base.specs.Answer.{GivesOr};
ghost use Rattle.std.specs.Simd.Lanes.{zip2, Each1};
ghost use Rattle.px_semantics.specs.Logic.{is_true, and_row, or_row, xor_row, not_row, boolean_logic_row, IsLogic};
ghost use Rattle.px_semantics.specs.Rows.{boolean_entry, boolean_row, elementwise, IsRowOf};
ghost use Rattle.px_types.specs.declared.value_type.ValueType.TheVariants as value_type;

use crate::bitmap::Bitmap;
use px_types::{Operator, PlanError};
use std::alloc::{AllocError, Global};
use std::marker::Model;

/// Fewer than 2^32 rows. Bit i of `valid` is set where row i is not null, and bit i of `truth`
/// where it is true.
#[derive(Drop)]
pub struct BooleanArray {
    truth: Bitmap,
    valid: Bitmap,
}

impl Model for BooleanArray {
    ghost use Rattle.std.specs.Prelude.{List};
    ghost use Rattle.std.specs.Simd.Lanes.{zip2};
    ghost use Rattle.px_semantics.specs.Rows.{Row, boolean_entry};
    ghost use Rattle.px_arrays.specs.BitmapOf.{AreBitmaps};

    ghost Value = { List Row };

    ghost view = { λ a. zip2 boolean_entry a.truth a.valid };

    ghost invariant = { λ a. AreBitmaps a.truth a.valid };
}

/// The Booleans, and false where there is none.
fn booleans_or_false(alloc: Global, values: &[Option<bool>]) -> Result<Vec<bool>, AllocError>
    ensures { IfOk result (λ v. v.items ≡ map (λ o. unwrap_or o false) values.now) }
{
    values.iter().map(|v| v.unwrap_or(false)).collect(alloc)
}

/// Which values are there.
fn validity_flags(alloc: Global, values: &[Option<bool>]) -> Result<Vec<bool>, AllocError>
    ensures { IfOk result (λ v. v.items ≡ map is_some values.now) }
{
    values.iter().map(|v| v.is_some()).collect(alloc)
}

impl BooleanArray {
    ghost use Rattle.px_arrays.specs.BitmapOf.{non_null};

    /// The bits as rows, null where `valid` is not set. The two have one length.
    pub fn masked(alloc: Global, flags: &Bitmap, valid: Bitmap) -> Result<BooleanArray, AllocError>
        requires { length flags.now ≡ length valid }
        ensures { IfOk result (λ r. r ≡ zip2 boolean_entry flags.now valid) }
    {
        let truth = flags.and(alloc, &valid)?;
        Ok(BooleanArray { truth, valid })
    }

    /// The flags as rows, null where `valid` is not set. There are as many flags as bits.
    pub fn from_flags(
        alloc: Global,
        flags: &[bool],
        valid: Bitmap,
    ) -> Result<BooleanArray, AllocError>
        requires { length flags.now ≡ length valid }
        ensures { IfOk result (λ r. r ≡ zip2 boolean_entry flags.now valid) }
    {
        prove!(flags.len() == valid.len());
        let all = Bitmap::from_bools(alloc, flags)?;
        BooleanArray::masked(alloc, &all, valid)
    }

    /// These bits as rows, of which none is null.
    pub fn non_null(alloc: Global, flags: Bitmap) -> Result<BooleanArray, AllocError>
        ensures { IfOk result (λ r. r ≡ map non_null flags) }
    {
        let valid = Bitmap::filled(alloc, flags.len(), true)?;
        Ok(BooleanArray {
            truth: flags,
            valid,
        })
    }

    /// True where a flag is not set, false where it is, and no null.
    pub fn complement_of(alloc: Global, flags: &Bitmap) -> Result<BooleanArray, AllocError>
        ensures { IfOk result (λ r. r ≡ map non_null (map not flags.now)) }
    {
        let valid = Bitmap::filled(alloc, flags.len(), true)?;
        let truth = valid.xor(alloc, flags)?;
        Ok(BooleanArray { truth, valid })
    }

    /// `len` times the value, or null where it is None.
    fn filled(alloc: Global, value: Option<bool>, len: usize) -> Result<BooleanArray, AllocError>
        requires { len < 2 ^ 32 }
        ensures { IfOk result (λ r. r ≡ replicate len (boolean_row value)) }
    {
        let truth = Bitmap::filled(alloc, len, value.unwrap_or(false))?;
        let valid = Bitmap::filled(alloc, len, value.is_some())?;
        Ok(BooleanArray { truth, valid })
    }

    /// These values as rows, of which there are fewer than 2^32. None is a null.
    pub fn from_options(alloc: Global, values: &[Option<bool>]) -> Result<BooleanArray, AllocError>
        requires { length values.now < 2 ^ 32 }
        ensures { IfOk result (λ r. r ≡ map boolean_row values.now) }
    {
        let flags = booleans_or_false(alloc, values)?;
        let valid = validity_flags(alloc, values)?;
        let valid = Bitmap::from_bools(alloc, valid.as_slice())?;
        BooleanArray::from_flags(alloc, flags.as_slice(), valid)
    }

    /// The number of rows, which is below 2^32.
    pub fn len(&self) -> usize
        ensures rows { result ≡ length self.now }
        ensures below_limit { result < 2 ^ 32 }
        ensures typed { Each1 (IsRowOf value_type.Boolean) self.now }
    {
        self.truth.len()
    }

    /// Row `i`, which is below the length: None where it is null.
    pub fn get(&self, i: usize) -> Option<bool>
        requires { i < length self.now }
        ensures { boolean_row result ≡ get_or self.now i None }
    {
        if self.valid.get(i) {
            Some(self.truth.get(i))
        } else {
            None
        }
    }

    /// Which rows are not null.
    pub fn valid(&self) -> &Bitmap
        ensures { result.now ≡ map is_some self.now }
    {
        &self.valid
    }

    /// Which rows are true.
    pub fn truth(&self) -> &Bitmap
        ensures { result.now ≡ map is_true self.now }
    {
        &self.truth
    }

    /// The same rows.
    pub fn try_clone(&self, alloc: Global) -> Result<BooleanArray, AllocError>
        ensures { IfOk result (λ r. r ≡ self.now) }
    {
        let truth = self.truth.try_clone(alloc)?;
        let valid = self.valid.try_clone(alloc)?;
        Ok(BooleanArray { truth, valid })
    }

    /// The one row `len` times, fewer than 2^32.
    pub fn repeated(&self, alloc: Global, len: usize) -> Result<BooleanArray, AllocError>
        requires one_row { length self.now ≡ 1 }
        requires below_limit { len < 2 ^ 32 }
        ensures { IfOk result (λ r. r ≡ replicate len (get_or self.now 0 None)) }
    {
        BooleanArray::filled(alloc, self.get(0), len)
    }

    /// Row by row: true where both are true, false where one is false, else null.
    fn and(&self, alloc: Global, other: &BooleanArray) -> Result<BooleanArray, AllocError>
        requires { length self.now ≡ length other.now }
        ensures { IfOk result (λ r. r ≡ zip2 and_row self.now other.now) }
    {
        let truth = self.truth.and(alloc, &other.truth)?;
        let valid = Bitmap::and_validity(
            alloc,
            &self.truth,
            &self.valid,
            &other.truth,
            &other.valid,
        )?;
        Ok(BooleanArray { truth, valid })
    }

    /// Row by row: true where one is true, false where both are false, else null.
    fn or(&self, alloc: Global, other: &BooleanArray) -> Result<BooleanArray, AllocError>
        requires { length self.now ≡ length other.now }
        ensures { IfOk result (λ r. r ≡ zip2 or_row self.now other.now) }
    {
        let truth = self.truth.or(alloc, &other.truth)?;
        let valid = Bitmap::or_validity(
            alloc,
            &self.truth,
            &self.valid,
            &other.truth,
            &other.valid,
        )?;
        Ok(BooleanArray { truth, valid })
    }

    /// Row by row: whether just one is true, null where one is null.
    fn xor(&self, alloc: Global, other: &BooleanArray) -> Result<BooleanArray, AllocError>
        requires { length self.now ≡ length other.now }
        ensures { IfOk result (λ r. r ≡ zip2 xor_row self.now other.now) }
    {
        let valid = self.valid.and(alloc, &other.valid)?;
        let truth = self.truth.masked_xor(alloc, &other.truth, &valid)?;
        Ok(BooleanArray { truth, valid })
    }

    /// Row by row the negation, null kept.
    pub fn not(&self, alloc: Global) -> Result<BooleanArray, AllocError>
        ensures { IfOk result (λ r. r ≡ map not_row self.now) }
    {
        let truth = self.truth.xor(alloc, &self.valid)?;
        let valid = self.valid.try_clone(alloc)?;
        Ok(BooleanArray { truth, valid })
    }

    /// False where a row is false, else null.
    fn false_or_null(&self, alloc: Global) -> Result<BooleanArray, AllocError>
        ensures { IfOk result (λ r. r ≡ map (λ x. and_row x None) self.now) }
    {
        let truth = Bitmap::filled(alloc, self.truth.len(), false)?;
        let valid = self.truth.xor(alloc, &self.valid)?;
        Ok(BooleanArray { truth, valid })
    }

    /// True where a row is true, else null.
    fn true_or_null(&self, alloc: Global) -> Result<BooleanArray, AllocError>
        ensures { IfOk result (λ r. r ≡ map (λ x. or_row x None) self.now) }
    {
        let truth = self.truth.try_clone(alloc)?;
        let valid = self.truth.try_clone(alloc)?;
        Ok(BooleanArray { truth, valid })
    }

    fn and_scalar(&self, alloc: Global, scalar: Option<bool>) -> Result<BooleanArray, AllocError>
        ensures { IfOk result (λ r. r ≡ map (λ x. and_row x (boolean_row scalar)) self.now) }
    {
        let len = self.len();
        match scalar {
            Some(true) => self.try_clone(alloc),
            Some(false) => BooleanArray::filled(alloc, scalar, len),
            None => self.false_or_null(alloc),
        }
    }

    fn or_scalar(&self, alloc: Global, scalar: Option<bool>) -> Result<BooleanArray, AllocError>
        ensures { IfOk result (λ r. r ≡ map (λ x. or_row x (boolean_row scalar)) self.now) }
    {
        let len = self.len();
        match scalar {
            Some(true) => BooleanArray::filled(alloc, scalar, len),
            Some(false) => self.try_clone(alloc),
            None => self.true_or_null(alloc),
        }
    }

    fn xor_scalar(&self, alloc: Global, scalar: Option<bool>) -> Result<BooleanArray, AllocError>
        ensures { IfOk result (λ r. r ≡ map (λ x. xor_row x (boolean_row scalar)) self.now) }
    {
        let len = self.len();
        match scalar {
            Some(true) => self.not(alloc),
            Some(false) => self.try_clone(alloc),
            None => BooleanArray::filled(alloc, scalar, len),
        }
    }

    /// Row by row the logical operator with one value, or with null where it is None.
    fn logic_scalar(
        &self,
        alloc: Global,
        op: Operator,
        scalar: Option<bool>,
    ) -> Result<BooleanArray, AllocError>
        requires { IsLogic op }
        ensures { IfOk result (λ r. r ≡ map (λ x. boolean_logic_row op x (boolean_row scalar)) self.now) }
    {
        match op {
            Operator::And => self.and_scalar(alloc, scalar),
            Operator::Or => self.or_scalar(alloc, scalar),
            Operator::Xor => self.xor_scalar(alloc, scalar),
            _ => unreachable!(),
        }
    }

    fn elementwise_logic(
        &self,
        alloc: Global,
        op: Operator,
        other: &BooleanArray,
    ) -> Result<BooleanArray, AllocError>
        requires logic { IsLogic op }
        requires same_length { length self.now ≡ length other.now }
        ensures { IfOk result (λ r. r ≡ zip2 (boolean_logic_row op) self.now other.now) }
    {
        match op {
            Operator::And => self.and(alloc, other),
            Operator::Or => self.or(alloc, other),
            Operator::Xor => self.xor(alloc, other),
            _ => unreachable!(),
        }
    }

    /// Row by row `And`, `Or` or `Xor` of Kleene logic. One row goes with each row of the other
    /// side. `ShapeMismatch` where the lengths do not broadcast. Else the only error is out of
    /// memory.
    pub fn logic(
        &self,
        alloc: Global,
        op: Operator,
        other: &BooleanArray,
    ) -> Result<BooleanArray, PlanError>
        requires { IsLogic op }
        ensures rows { GivesOr PlanError.ShapeMismatch (λ r. r) result
            (elementwise (boolean_logic_row op) self.now other.now) }
    {
        let m = self.len();
        let n = other.len();
        if m == n {
            return Ok(self.elementwise_logic(alloc, op, other)?);
        }
        if m == 1 {
            return Ok(other.logic_scalar(alloc, op, self.get(0))?);
        }
        if n == 1 {
            return Ok(self.logic_scalar(alloc, op, other.get(0))?);
        }
        Err(PlanError::ShapeMismatch)
    }
}
