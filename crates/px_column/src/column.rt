//! A column: a name, a type, and rows that may be null.
ghost use Rattle.std.specs.Prelude.{◌≡◌, ◌⊎◌, ◌<◌, ◌≤◌, ◌+◌, ◌/◌, ◌^◌, ◌↔◌, ℕ, length, map, replicate, get_or, Some, None, IfOk, IfErr, IfSome, IsSome, IsTrue, is_some};
ghost use Rattle.std.specs.Simd.Lanes.{Each1};
ghost use Rattle.px_base.specs.Answer.{GivesOrMemory};
ghost use Rattle.px_semantics.specs.Logic.{is_true};
ghost use Rattle.px_semantics.specs.Rows.{boolean_row, integer_row, string_row, null_count, IsBoolean, IsRowOf};
ghost use Rattle.px_types.specs.ValueTypes.{dtype_of, value_type_of};
ghost use Rattle.px_types.specs.declared.value_type.ValueType.TheVariants as value_type;
ghost use Rattle.px_column.specs.ColumnOf.{HoldsIntegers};
ghost use Rattle.px_column.specs.Values.{row_of, IsValueOf};

use crate::buffer::Buffer;
use px_arrays::{BooleanArray, StringArray};
use px_types::{AnyValue, DataType, PlanError, SmallStr, ValueType};
use std::alloc::Global;
use std::marker::Model;

/// A name and fewer than 2^32 rows of one type. Contracts see the name, the type and the rows,
/// however the rows are kept.
#[derive(Drop)]
pub struct Column {
    name: SmallStr,
    dtype: DataType,
    buffer: Buffer,
}

/// Another name of `Column`, as Polars' expressions have it.
pub type Series = Column;

impl Model for Column {
    ghost use Rattle.px_semantics.specs.Rows.{Contents};

    ghost Value = { Contents };

    ghost use Rattle.px_column.specs.ColumnOf.{type_of, rows_of};

    ghost view = { λ c. record { name = c.name; values = record { value_type = type_of c.buffer; rows = rows_of c.buffer } } };

    ghost use Rattle.std.specs.Prelude.{◌≡◌};
    ghost use Rattle.px_types.specs.ValueTypes.{dtype_of};

    ghost invariant = { λ c. c.dtype ≡ dtype_of (type_of c.buffer) };
}

/// 2^32, from which on a column would have too many rows.
const TOO_LONG: usize = 4294967296;

impl Column {
    ghost use Rattle.px_column.specs.ColumnOf.{type_of, rows_of};
    ghost use Rattle.px_arrays.specs.BitmapOf.{bit_of};

    /// The rows of the buffer under the name.
    pub fn new(name: SmallStr, buffer: Buffer) -> Column
        ensures { result ≡ record { name = name; values = record { value_type = type_of buffer; rows = rows_of buffer } } }
    {
        let dtype = buffer.value_type().dtype();
        Column {
            name,
            dtype,
            buffer,
        }
    }

    /// A column of the type `Null`, of `len` rows that are all null. The only error is out of
    /// memory.
    pub fn new_null(alloc: Global, name: &str, len: u32) -> Result<Column, PlanError>
        ensures { GivesOrMemory result (record { name = name.now; values = record { value_type = value_type.Null; rows = replicate len None } }) }
    {
        let name = SmallStr::new(alloc, name)?;
        Ok(Column::new(name, Buffer::Null(len)))
    }

    /// A column of Booleans; None is a null. `TooLong` from 2^32 rows on. Else the only error is
    /// out of memory.
    pub fn new_bool(alloc: Global, name: &str, values: &[Option<bool>]) -> Result<Column, PlanError>
        ensures column { IfOk result (λ c. c
            ≡ record { name = name.now; values = record { value_type = value_type.Boolean; rows = map boolean_row values.now } }) }
        ensures below_limit { IfOk result (λ _. length values.now < 2 ^ 32) }
        ensures err { IfErr result (λ e. (e ≡ PlanError.OutOfMemory)
            ⊎ ((e ≡ PlanError.TooLong) × (2 ^ 32 ≤ length values.now))) }
    {
        if values.len() >= TOO_LONG {
            return Err(PlanError::TooLong);
        }
        let name = SmallStr::new(alloc, name)?;
        let rows = BooleanArray::from_options(alloc, values)?;
        Ok(Column::new(name, Buffer::Boolean(rows)))
    }

    /// A column of integers of the type `dtype`; None is a null. `TooLong` from 2^32 rows on, else
    /// `InvalidOperation` where `dtype` is no integer type of 8 to 64 bits, or a value is outside
    /// it. Else the only error is out of memory.
    pub fn new_int(
        alloc: Global,
        name: &str,
        dtype: DataType,
        values: &[Option<i128>],
    ) -> Result<Column, PlanError>
        ensures name { IfOk result (λ c. c.name ≡ name.now) }
        ensures value_type { IfOk result (λ c. value_type_of dtype ≡ Some c.values.value_type) }
        ensures rows { IfOk result (λ c. c.values.rows ≡ map integer_row values.now) }
        ensures holds { IfOk result (λ _. (length values.now < 2 ^ 32)
            × HoldsIntegers (value_type_of dtype) values.now) }
        ensures err { IfErr result (λ e. (e ≡ PlanError.OutOfMemory)
            ⊎ (((e ≡ PlanError.TooLong) × (2 ^ 32 ≤ length values.now))
            ⊎ ((e ≡ PlanError.InvalidOperation) × (length values.now < 2 ^ 32)
            × ¬ (HoldsIntegers (value_type_of dtype) values.now)))) }
    {
        if values.len() >= TOO_LONG {
            return Err(PlanError::TooLong);
        }
        let Some(value_type) = dtype.value_type() else {
            return Err(PlanError::InvalidOperation);
        };
        let name = SmallStr::new(alloc, name)?;
        let Some(buffer) = Buffer::from_integers(alloc, value_type, values)? else {
            return Err(PlanError::InvalidOperation);
        };
        Ok(Column::new(name, buffer))
    }

    /// A column of strings; None is a null. `TooLong` from 2^32 rows on. Else the only error is out
    /// of memory.
    pub fn new_text(
        alloc: Global,
        name: &str,
        values: &[Option<SmallStr>],
    ) -> Result<Column, PlanError>
        ensures column { IfOk result (λ c. c
            ≡ record { name = name.now; values = record { value_type = value_type.String; rows = map string_row values.now } }) }
        ensures below_limit { IfOk result (λ _. length values.now < 2 ^ 32) }
        ensures err { IfErr result (λ e. (e ≡ PlanError.OutOfMemory)
            ⊎ ((e ≡ PlanError.TooLong) × (2 ^ 32 ≤ length values.now))) }
    {
        if values.len() >= TOO_LONG {
            return Err(PlanError::TooLong);
        }
        let name = SmallStr::new(alloc, name)?;
        let rows = StringArray::from_options(alloc, values)?;
        Ok(Column::new(name, Buffer::String(rows)))
    }

    /// The name.
    pub fn name(&self) -> &SmallStr
        ensures { result.now ≡ self.now.name }
    {
        &self.name
    }

    /// The type of the rows.
    pub fn value_type(&self) -> ValueType
        ensures { result ≡ self.now.values.value_type }
    {
        self.buffer.value_type()
    }

    /// The type of the rows, among all types.
    pub fn dtype(&self) -> &DataType
        ensures { result.now ≡ dtype_of self.now.values.value_type }
    {
        &self.dtype
    }

    /// The number of rows, which is below 2^32. Each row is null or a value of the type.
    pub fn len(&self) -> u32
        ensures rows { result ≡ length self.now.values.rows }
        ensures typed { Each1 (IsRowOf self.now.values.value_type) self.now.values.rows }
    {
        self.buffer.len()
    }

    /// Whether there are no rows.
    pub fn is_empty(&self) -> bool
        ensures { IsTrue result ↔ (length self.now.values.rows ≡ 0) }
    {
        self.len() == 0
    }

    /// The number of rows that are null.
    pub fn null_count(&self) -> u32
        ensures { result ≡ null_count self.now.values.rows }
    {
        self.buffer.null_count()
    }

    /// Row `i`, which is below the length. A null is `AnyValue::Null`.
    pub fn get(&self, i: u32) -> AnyValue<'_>
        requires { i < length self.now.values.rows }
        ensures row { row_of result ≡ get_or self.now.values.rows i None }
        ensures value_type { IsValueOf self.now.values.value_type result }
    {
        self.buffer.get(i as usize)
    }

    /// The rows as they are kept.
    pub fn buffer(&self) -> &Buffer
        ensures value_type { type_of result.now ≡ self.now.values.value_type }
        ensures rows { rows_of result.now ≡ self.now.values.rows }
    {
        &self.buffer
    }

    /// Of a Boolean column, (length + 63) / 64 words: bit i % 64 of word i / 64 is set where row i
    /// is true. Each other bit is zero. None for a column of another type.
    pub fn truth_words(&self) -> Option<&[u64]>
        ensures boolean { IsSome result ↔ IsBoolean self.now.values.value_type }
        ensures words_length { IfSome result (λ words. length words.now ≡ (length self.now.values.rows + 63) / 64) }
        ensures bits { IfSome result (λ words. (i : ℕ)
            → bit_of words.now i ≡ is_true (get_or self.now.values.rows i None)) }
    {
        match &self.buffer {
            Buffer::Boolean(rows) => Some(rows.truth().words()),
            _ => None,
        }
    }

    /// Of a Boolean column, (length + 63) / 64 words: bit i % 64 of word i / 64 is set where row i
    /// is not null. Each other bit is zero. None for a column of another type.
    pub fn valid_words(&self) -> Option<&[u64]>
        ensures boolean { IsSome result ↔ IsBoolean self.now.values.value_type }
        ensures words_length { IfSome result (λ words. length words.now ≡ (length self.now.values.rows + 63) / 64) }
        ensures bits { IfSome result (λ words. (i : ℕ)
            → bit_of words.now i ≡ is_some (get_or self.now.values.rows i None)) }
    {
        match &self.buffer {
            Buffer::Boolean(rows) => Some(rows.valid().words()),
            _ => None,
        }
    }

    /// The same rows under the name, without a copy.
    pub fn rename(self, name: SmallStr) -> Column
        ensures { result ≡ record self { name = name } }
    {
        Column::new(name, self.buffer)
    }

    /// An equal column. The only error is out of memory.
    pub fn try_clone(&self, alloc: Global) -> Result<Column, PlanError>
        ensures { GivesOrMemory result self.now }
    {
        let name = self.name.try_clone(alloc)?;
        let buffer = self.buffer.try_clone(alloc)?;
        Ok(Column::new(name, buffer))
    }
}
