//! Values that stand in an expression.
ghost use Rattle.std.specs.Prelude.{◌≡◌, IsTrue, ◌↔◌};
ghost use Rattle.px_base.specs.Answer.{GivesOrMemory};

use px_column::Column;
use px_types::{DataType, List, PlanError, SmallStr};
use std::alloc::Global;

/// Bytes, in order.
pub type ByteList = List<u8>;

/// A value that stands in an expression.
#[derive(Drop)]
pub enum LiteralValue {
    Null,
    Boolean(bool),
    String(SmallStr),
    Binary(ByteList),
    UInt8(u8),
    UInt16(u16),
    UInt32(u32),
    UInt64(u64),
    Int8(i8),
    Int16(i16),
    Int32(i32),
    Int64(i64),
    Int128(i128),
    /// The integers from `low` up to `high`, which is left out.
    Range {
        low: i64,
        high: i64,
        dtype: DataType,
    },
    /// A whole column.
    Series(Column),
    /// An integer whose type the node above it decides.
    Int(i128),
    /// A text that is a part of a longer one.
    StrCat(SmallStr),
}

fn same_bytes(a: &ByteList, b: &ByteList) -> bool
    ensures { IsTrue result ↔ (a.now ≡ b.now) }
{
    a.as_slice() == b.as_slice()
}

fn same_literal(a: &LiteralValue, b: &LiteralValue) -> bool
    ensures { IsTrue result ↔ (a.now ≡ b.now) }
{
    match (a, b) {
        (LiteralValue::Null, LiteralValue::Null) => true,
        (LiteralValue::Boolean(a), LiteralValue::Boolean(b)) => *a == *b,
        (LiteralValue::String(a), LiteralValue::String(b)) => *a == *b,
        (LiteralValue::Binary(a), LiteralValue::Binary(b)) => same_bytes(a, b),
        (LiteralValue::UInt8(a), LiteralValue::UInt8(b)) => *a == *b,
        (LiteralValue::UInt16(a), LiteralValue::UInt16(b)) => *a == *b,
        (LiteralValue::UInt32(a), LiteralValue::UInt32(b)) => *a == *b,
        (LiteralValue::UInt64(a), LiteralValue::UInt64(b)) => *a == *b,
        (LiteralValue::Int8(a), LiteralValue::Int8(b)) => *a == *b,
        (LiteralValue::Int16(a), LiteralValue::Int16(b)) => *a == *b,
        (LiteralValue::Int32(a), LiteralValue::Int32(b)) => *a == *b,
        (LiteralValue::Int64(a), LiteralValue::Int64(b)) => *a == *b,
        (LiteralValue::Int128(a), LiteralValue::Int128(b)) => *a == *b,
        (
            LiteralValue::Range { low, high, dtype },
            LiteralValue::Range {
                low: other_low,
                high: other_high,
                dtype: other,
            },
        ) => *low == *other_low && *high == *other_high && *dtype == *other,
        (LiteralValue::Series(a), LiteralValue::Series(b)) => *a == *b,
        (LiteralValue::Int(a), LiteralValue::Int(b)) => *a == *b,
        (LiteralValue::StrCat(a), LiteralValue::StrCat(b)) => *a == *b,
        _ => false,
    }
}

impl PartialEq for LiteralValue {
    ghost use Rattle.px_base.specs.Exact.{same};
    ghost use Rattle.px_base.proofs.Exact.{same-partial};
    ghost use Rattle.px_expr.specs.contracts.literal.LiteralValue.{the_row};
    ghost use Rattle.std.specs.Prelude.{◌≡◌, IsTrue, ◌↔◌};

    ghost eq = { same the_row.coded };

    ghost laws = { same-partial the_row.coded };

    fn eq(&self, other: &LiteralValue) -> bool
        ensures value { result ≡ same the_row.coded self.now other.now }
        ensures exact { IsTrue result ↔ (self.now ≡ other.now) }
    {
        same_literal(self, other)
    }
}

impl Eq for LiteralValue {
    ghost use Rattle.px_base.proofs.Exact.{same-equivalence};
    ghost use Rattle.px_expr.specs.contracts.literal.LiteralValue.{the_row};

    ghost laws = { same-equivalence the_row.coded };
}

impl LiteralValue {
    /// An equal literal.
    pub fn try_clone(&self, alloc: Global) -> Result<LiteralValue, PlanError>
        ensures { GivesOrMemory result self.now }
    {
        match self {
            LiteralValue::Null => Ok(LiteralValue::Null),
            LiteralValue::Boolean(value) => Ok(LiteralValue::Boolean(*value)),
            LiteralValue::String(text) => Ok(LiteralValue::String(text.try_clone(alloc)?)),
            LiteralValue::Binary(bytes) => Ok(LiteralValue::Binary(bytes.try_clone(alloc)?)),
            LiteralValue::UInt8(value) => Ok(LiteralValue::UInt8(*value)),
            LiteralValue::UInt16(value) => Ok(LiteralValue::UInt16(*value)),
            LiteralValue::UInt32(value) => Ok(LiteralValue::UInt32(*value)),
            LiteralValue::UInt64(value) => Ok(LiteralValue::UInt64(*value)),
            LiteralValue::Int8(value) => Ok(LiteralValue::Int8(*value)),
            LiteralValue::Int16(value) => Ok(LiteralValue::Int16(*value)),
            LiteralValue::Int32(value) => Ok(LiteralValue::Int32(*value)),
            LiteralValue::Int64(value) => Ok(LiteralValue::Int64(*value)),
            LiteralValue::Int128(value) => Ok(LiteralValue::Int128(*value)),
            LiteralValue::Range { low, high, dtype } => Ok(LiteralValue::Range {
                low: *low,
                high: *high,
                dtype: dtype.try_clone(alloc)?,
            }),
            LiteralValue::Series(column) => Ok(LiteralValue::Series(column.try_clone(alloc)?)),
            LiteralValue::Int(value) => Ok(LiteralValue::Int(*value)),
            LiteralValue::StrCat(text) => Ok(LiteralValue::StrCat(text.try_clone(alloc)?)),
        }
    }
}
