//! The work that is timed.
ghost use Rattle.std.specs.Prelude.{◌≡◌};

use crate::inputs::{Inputs, boolean_column, checked_column, number_column};
use px_column::Column;
use px_kernels::{arith, cast, compare, is_null, kleene_and, negate, zip_with};
use px_types::{AnyValue, CastOptions, DataType, Operator, PlanError};
use std::alloc::Global;

/// A piece of work. A kernel to be timed is one more variant, with its label and its call below.
pub enum Work {
    BuildBoolean,
    BuildInteger,
    BuildByRows,
    KleeneAnd,
    IsNullBoolean,
    IsNullInteger,
    NullCountBoolean,
    NullCountInteger,
    Plus,
    Multiply,
    FloorDivide,
    Lt,
    ZipWith,
    Negate,
    Cast,
}

/// Each piece of work, in the order in which it is timed.
pub static ALL: [Work; 15] = [
    Work::BuildBoolean,
    Work::BuildInteger,
    Work::BuildByRows,
    Work::KleeneAnd,
    Work::IsNullBoolean,
    Work::IsNullInteger,
    Work::NullCountBoolean,
    Work::NullCountInteger,
    Work::Plus,
    Work::Multiply,
    Work::FloorDivide,
    Work::Lt,
    Work::ZipWith,
    Work::Negate,
    Work::Cast,
];

impl Work {
    pub fn label(&self) -> &'static str {
        match self {
            Work::BuildBoolean => "build Boolean from options",
            Work::BuildInteger => "build Int32 from wide options",
            Work::BuildByRows => "build Int32 row by row",
            Work::KleeneAnd => "kleene_and",
            Work::IsNullBoolean => "is_null of Boolean",
            Work::IsNullInteger => "is_null of Int32",
            Work::NullCountBoolean => "null_count of Boolean",
            Work::NullCountInteger => "null_count of Int32",
            Work::Plus => "plus",
            Work::Multiply => "multiply",
            Work::FloorDivide => "floor_divide",
            Work::Lt => "lt",
            Work::ZipWith => "zip_with",
            Work::Negate => "negate",
            Work::Cast => "cast Int32 to Int64",
        }
    }

    /// Does the work once, and gives a number that depends on the answer, so that no work is left out.
    pub fn run(&self, alloc: Global, inputs: &Inputs) -> Result<u64, PlanError> {
        let sources = &inputs.sources;
        let (p, q) = (&inputs.first.booleans, &inputs.second.booleans);
        let (a, b) = (&inputs.first.numbers, &inputs.second.numbers);
        let answer = match self {
            Work::NullCountBoolean => return Ok(u64::from(p.null_count())),
            Work::NullCountInteger => return Ok(u64::from(a.null_count())),
            Work::BuildBoolean => boolean_column(alloc, sources.flags.as_slice())?,
            Work::BuildInteger => checked_column(alloc, sources.wide.as_slice())?,
            Work::BuildByRows => number_column(alloc, sources.narrow.as_slice())?,
            Work::KleeneAnd => kleene_and(alloc, p, q)?,
            Work::IsNullBoolean => is_null(alloc, p)?,
            Work::IsNullInteger => is_null(alloc, a)?,
            Work::Plus => arith(alloc, Operator::Plus, a, b)?,
            Work::Multiply => arith(alloc, Operator::Multiply, a, b)?,
            Work::FloorDivide => arith(alloc, Operator::FloorDivide, a, b)?,
            Work::Lt => compare(alloc, Operator::Lt, a, b)?,
            Work::ZipWith => zip_with(alloc, p, a, b)?,
            Work::Negate => negate(alloc, a)?,
            Work::Cast => cast(alloc, a, &DataType::Int64, CastOptions::NonStrict)?,
        };
        Ok(last_value(&answer))
    }
}

/// A number that depends on the last row.
fn last_value(column: &Column) -> u64 {
    if column.is_empty() {
        return 0;
    }
    match column.get(column.len() - 1) {
        AnyValue::Boolean(value) => u64::from(value),
        AnyValue::Int32(value) => u64::from(value.unsigned_abs()),
        AnyValue::Int64(value) => value.unsigned_abs(),
        _ => 0,
    }
}
