//! The rows of a column, in the form that their type takes.
ghost use Rattle.std.specs.Prelude.{◌≡◌, ◌⊎◌, ◌<◌, ◌^◌, ◌↔◌, length, map, replicate, get_or, Some, None, is_some, IfOk, IfErr, IfSome, IsSome};
ghost use Rattle.std.specs.Simd.Lanes.{Each1};
ghost use Rattle.px_base.specs.Answer.{GivesOrMemory, GivesOr};
ghost use Rattle.px_types.specs.Integers.{IsInteger};
ghost use Rattle.px_semantics.specs.Logic.{logic_row, inverse_row, null_row, IsLogic};
ghost use Rattle.px_semantics.specs.Rows.{IsRowOf, IsBoolean, integer_row, null_count, elementwise};
ghost use Rattle.px_column.specs.ColumnOf.{type_of, rows_of, HoldsIntegers};
ghost use Rattle.px_column.specs.Values.{row_of, IsValueOf};

use px_arrays::{Bitmap, BooleanArray, IntegerArray, StringArray};
use px_types::{AnyValue, Operator, PlanError, ValueType};
use std::alloc::{AllocError, Global};

/// The rows of a column, in the form that their type takes: fewer than 2^32, each null or a value
/// of the type.
#[derive(Drop)]
pub enum Buffer {
    /// So many nulls.
    Null(u32),
    Boolean(BooleanArray),
    String(StringArray),
    Int8(IntegerArray<i8>),
    Int16(IntegerArray<i16>),
    Int32(IntegerArray<i32>),
    Int64(IntegerArray<i64>),
    UInt8(IntegerArray<u8>),
    UInt16(IntegerArray<u16>),
    UInt32(IntegerArray<u32>),
    UInt64(IntegerArray<u64>),
}

macro_rules! numbers {
    ($variant:ident, $alloc:expr, $values:expr) => {
        match IntegerArray::from_options($alloc, $values)? {
            Some(rows) => Ok(Some(Buffer::$variant(rows))),
            None => Ok(None),
        }
    };
}

macro_rules! value {
    ($variant:ident, $rows:expr, $i:expr) => {
        match $rows.get($i) {
            Some(value) => AnyValue::$variant(value),
            None => AnyValue::Null,
        }
    };
}

impl Buffer {
    /// These values as rows of a type, of which there are fewer than 2^32; None is a null. None is
    /// answered where the type is no integer type, or one of them is outside it. The only error is
    /// out of memory.
    pub fn from_integers(
        alloc: Global,
        value_type: ValueType,
        values: &[Option<i128>],
    ) -> Result<Option<Buffer>, PlanError>
        requires { length values.now < 2 ^ 32 }
        ensures value_type { IfOk result (λ o. IfSome o (λ b. type_of b ≡ value_type)) }
        ensures rows { IfOk result (λ o. IfSome o (λ b. rows_of b ≡ map integer_row values.now)) }
        ensures inside { IfOk result (λ o. IsSome o ↔ HoldsIntegers (Some value_type) values.now) }
        ensures err { IfErr result (λ e. e ≡ PlanError.OutOfMemory) }
    {
        match value_type {
            ValueType::Int8 => numbers!(Int8, alloc, values),
            ValueType::Int16 => numbers!(Int16, alloc, values),
            ValueType::Int32 => numbers!(Int32, alloc, values),
            ValueType::Int64 => numbers!(Int64, alloc, values),
            ValueType::UInt8 => numbers!(UInt8, alloc, values),
            ValueType::UInt16 => numbers!(UInt16, alloc, values),
            ValueType::UInt32 => numbers!(UInt32, alloc, values),
            ValueType::UInt64 => numbers!(UInt64, alloc, values),
            _ => Ok(None),
        }
    }

    /// The type of the rows.
    pub fn value_type(&self) -> ValueType
        ensures { result ≡ type_of self.now }
    {
        match self {
            Buffer::Null(_) => ValueType::Null,
            Buffer::Boolean(_) => ValueType::Boolean,
            Buffer::String(_) => ValueType::String,
            Buffer::Int8(_) => ValueType::Int8,
            Buffer::Int16(_) => ValueType::Int16,
            Buffer::Int32(_) => ValueType::Int32,
            Buffer::Int64(_) => ValueType::Int64,
            Buffer::UInt8(_) => ValueType::UInt8,
            Buffer::UInt16(_) => ValueType::UInt16,
            Buffer::UInt32(_) => ValueType::UInt32,
            Buffer::UInt64(_) => ValueType::UInt64,
        }
    }

    /// The number of rows. Each row is null or a value of the type.
    pub fn len(&self) -> u32
        ensures rows { result ≡ length (rows_of self.now) }
        ensures typed { Each1 (IsRowOf (type_of self.now)) (rows_of self.now) }
    {
        match self {
            Buffer::Null(len) => *len,
            Buffer::Boolean(rows) => rows.len() as u32,
            Buffer::String(rows) => rows.len() as u32,
            Buffer::Int8(rows) => rows.len() as u32,
            Buffer::Int16(rows) => rows.len() as u32,
            Buffer::Int32(rows) => rows.len() as u32,
            Buffer::Int64(rows) => rows.len() as u32,
            Buffer::UInt8(rows) => rows.len() as u32,
            Buffer::UInt16(rows) => rows.len() as u32,
            Buffer::UInt32(rows) => rows.len() as u32,
            Buffer::UInt64(rows) => rows.len() as u32,
        }
    }

    /// Row `i`, which is below the length.
    pub fn get(&self, i: usize) -> AnyValue<'_>
        requires { i < length (rows_of self.now) }
        ensures row { row_of result ≡ get_or (rows_of self.now) i None }
        ensures value_type { IsValueOf (type_of self.now) result }
    {
        match self {
            Buffer::Null(_) => AnyValue::Null,
            Buffer::Boolean(rows) => value!(Boolean, rows, i),
            Buffer::String(rows) => value!(String, rows, i),
            Buffer::Int8(rows) => value!(Int8, rows, i),
            Buffer::Int16(rows) => value!(Int16, rows, i),
            Buffer::Int32(rows) => value!(Int32, rows, i),
            Buffer::Int64(rows) => value!(Int64, rows, i),
            Buffer::UInt8(rows) => value!(UInt8, rows, i),
            Buffer::UInt16(rows) => value!(UInt16, rows, i),
            Buffer::UInt32(rows) => value!(UInt32, rows, i),
            Buffer::UInt64(rows) => value!(UInt64, rows, i),
        }
    }

    /// Which rows are not null, one bit for each row. None of rows of type Null, which are all null.
    pub fn validity(&self) -> Option<&Bitmap>
        ensures bits { IfSome result (λ b. b.now ≡ map is_some (rows_of self.now)) }
        ensures nulls { result ≡ None → rows_of self.now ≡ replicate (length (rows_of self.now)) None }
    {
        match self {
            Buffer::Null(_) => None,
            Buffer::Boolean(rows) => Some(rows.valid()),
            Buffer::String(rows) => Some(rows.valid()),
            Buffer::Int8(rows) => Some(rows.valid()),
            Buffer::Int16(rows) => Some(rows.valid()),
            Buffer::Int32(rows) => Some(rows.valid()),
            Buffer::Int64(rows) => Some(rows.valid()),
            Buffer::UInt8(rows) => Some(rows.valid()),
            Buffer::UInt16(rows) => Some(rows.valid()),
            Buffer::UInt32(rows) => Some(rows.valid()),
            Buffer::UInt64(rows) => Some(rows.valid()),
        }
    }

    /// The number of nulls.
    pub fn null_count(&self) -> u32
        ensures { result ≡ null_count (rows_of self.now) }
    {
        match self.validity() {
            Some(valid) => valid.zeros() as u32,
            None => self.len(),
        }
    }

    /// Which rows are not null.
    pub fn valid(&self, alloc: Global) -> Result<Bitmap, AllocError>
        ensures { IfOk result (λ b. b ≡ map is_some (rows_of self.now)) }
    {
        match self.validity() {
            Some(valid) => valid.try_clone(alloc),
            None => Bitmap::filled(alloc, self.len() as usize, false),
        }
    }

    /// Row by row whether it is null, which is never null itself.
    pub fn null_flags(&self, alloc: Global) -> Result<BooleanArray, AllocError>
        ensures { IfOk result (λ r. r ≡ map null_row (rows_of self.now)) }
    {
        match self.validity() {
            Some(valid) => BooleanArray::complement_of(alloc, valid),
            None => BooleanArray::non_null(
                alloc,
                Bitmap::filled(alloc, self.len() as usize, true)?,
            ),
        }
    }

    /// The same rows. The only error is out of memory.
    pub fn try_clone(&self, alloc: Global) -> Result<Buffer, PlanError>
        ensures { GivesOrMemory result self.now }
    {
        match self {
            Buffer::Null(len) => Ok(Buffer::Null(*len)),
            Buffer::Boolean(rows) => Ok(Buffer::Boolean(rows.try_clone(alloc)?)),
            Buffer::String(rows) => Ok(Buffer::String(rows.try_clone(alloc)?)),
            Buffer::Int8(rows) => Ok(Buffer::Int8(rows.try_clone(alloc)?)),
            Buffer::Int16(rows) => Ok(Buffer::Int16(rows.try_clone(alloc)?)),
            Buffer::Int32(rows) => Ok(Buffer::Int32(rows.try_clone(alloc)?)),
            Buffer::Int64(rows) => Ok(Buffer::Int64(rows.try_clone(alloc)?)),
            Buffer::UInt8(rows) => Ok(Buffer::UInt8(rows.try_clone(alloc)?)),
            Buffer::UInt16(rows) => Ok(Buffer::UInt16(rows.try_clone(alloc)?)),
            Buffer::UInt32(rows) => Ok(Buffer::UInt32(rows.try_clone(alloc)?)),
            Buffer::UInt64(rows) => Ok(Buffer::UInt64(rows.try_clone(alloc)?)),
        }
    }

    /// The one row `len` times. The only error is out of memory.
    pub fn repeated(&self, alloc: Global, len: u32) -> Result<Buffer, PlanError>
        requires { length (rows_of self.now) ≡ 1 }
        ensures value_type { IfOk result (λ b. type_of b ≡ type_of self.now) }
        ensures rows { IfOk result (λ b. rows_of b ≡ replicate len (get_or (rows_of self.now) 0 None)) }
        ensures err { IfErr result (λ e. e ≡ PlanError.OutOfMemory) }
    {
        let count = len as usize;
        match self {
            Buffer::Null(_) => Ok(Buffer::Null(len)),
            Buffer::Boolean(rows) => Ok(Buffer::Boolean(rows.repeated(alloc, count)?)),
            Buffer::String(rows) => Ok(Buffer::String(rows.repeated(alloc, count)?)),
            Buffer::Int8(rows) => Ok(Buffer::Int8(rows.repeated(alloc, count)?)),
            Buffer::Int16(rows) => Ok(Buffer::Int16(rows.repeated(alloc, count)?)),
            Buffer::Int32(rows) => Ok(Buffer::Int32(rows.repeated(alloc, count)?)),
            Buffer::Int64(rows) => Ok(Buffer::Int64(rows.repeated(alloc, count)?)),
            Buffer::UInt8(rows) => Ok(Buffer::UInt8(rows.repeated(alloc, count)?)),
            Buffer::UInt16(rows) => Ok(Buffer::UInt16(rows.repeated(alloc, count)?)),
            Buffer::UInt32(rows) => Ok(Buffer::UInt32(rows.repeated(alloc, count)?)),
            Buffer::UInt64(rows) => Ok(Buffer::UInt64(rows.repeated(alloc, count)?)),
        }
    }

    /// Row by row `And`, `Or` or `Xor`, in Kleene logic of two Boolean buffers, or bit by bit of
    /// two of one integer type. One row goes with each row of the other side. `ShapeMismatch` where
    /// the lengths do not broadcast. Else the only error is out of memory.
    pub fn logic(&self, alloc: Global, op: Operator, other: &Buffer) -> Result<Buffer, PlanError>
        requires logic { IsLogic op }
        requires operand { IsBoolean (type_of self.now) ⊎ IsInteger (type_of self.now) }
        requires same { type_of self.now ≡ type_of other.now }
        ensures value_type { IfOk result (λ b. type_of b ≡ type_of self.now) }
        ensures rows { GivesOr PlanError.ShapeMismatch (λ b. rows_of b) result
            (elementwise (logic_row op (type_of self.now)) (rows_of self.now) (rows_of other.now)) }
    {
        match (self, other) {
            (Buffer::Boolean(a), Buffer::Boolean(b)) => Ok(Buffer::Boolean(a.logic(alloc, op, b)?)),
            (Buffer::Int8(a), Buffer::Int8(b)) => Ok(Buffer::Int8(a.logic(alloc, op, b)?)),
            (Buffer::Int16(a), Buffer::Int16(b)) => Ok(Buffer::Int16(a.logic(alloc, op, b)?)),
            (Buffer::Int32(a), Buffer::Int32(b)) => Ok(Buffer::Int32(a.logic(alloc, op, b)?)),
            (Buffer::Int64(a), Buffer::Int64(b)) => Ok(Buffer::Int64(a.logic(alloc, op, b)?)),
            (Buffer::UInt8(a), Buffer::UInt8(b)) => Ok(Buffer::UInt8(a.logic(alloc, op, b)?)),
            (Buffer::UInt16(a), Buffer::UInt16(b)) => Ok(Buffer::UInt16(a.logic(alloc, op, b)?)),
            (Buffer::UInt32(a), Buffer::UInt32(b)) => Ok(Buffer::UInt32(a.logic(alloc, op, b)?)),
            (Buffer::UInt64(a), Buffer::UInt64(b)) => Ok(Buffer::UInt64(a.logic(alloc, op, b)?)),
            _ => unreachable!(),
        }
    }

    /// Row by row the negation of a Boolean, or the complement of an integer, null kept.
    pub fn inverse(&self, alloc: Global) -> Result<Buffer, AllocError>
        requires { IsBoolean (type_of self.now) ⊎ IsInteger (type_of self.now) }
        ensures value_type { IfOk result (λ b. type_of b ≡ type_of self.now) }
        ensures rows { IfOk result (λ b. rows_of b ≡ map (inverse_row (type_of self.now)) (rows_of self.now)) }
    {
        match self {
            Buffer::Boolean(rows) => Ok(Buffer::Boolean(rows.not(alloc)?)),
            Buffer::Int8(rows) => Ok(Buffer::Int8(rows.complement(alloc)?)),
            Buffer::Int16(rows) => Ok(Buffer::Int16(rows.complement(alloc)?)),
            Buffer::Int32(rows) => Ok(Buffer::Int32(rows.complement(alloc)?)),
            Buffer::Int64(rows) => Ok(Buffer::Int64(rows.complement(alloc)?)),
            Buffer::UInt8(rows) => Ok(Buffer::UInt8(rows.complement(alloc)?)),
            Buffer::UInt16(rows) => Ok(Buffer::UInt16(rows.complement(alloc)?)),
            Buffer::UInt32(rows) => Ok(Buffer::UInt32(rows.complement(alloc)?)),
            Buffer::UInt64(rows) => Ok(Buffer::UInt64(rows.complement(alloc)?)),
            _ => unreachable!(),
        }
    }
}
