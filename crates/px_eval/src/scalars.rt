//! The rows of literals.
ghost use Rattle.std.specs.Prelude.{◌≡◌, List, [], ◌∷◌, Some, IfOk, IfErr};
ghost use Rattle.px_base.specs.Answer.{GivesOrMemory};
ghost use Rattle.px_semantics.specs.Rows.{IntegerValue, TypedRows};
ghost use Rattle.px_types.specs.declared.value_type.ValueType.{ValueType};
ghost use Rattle.px_meaning.specs.Literals.{literal_rows};
ghost use Rattle.px_meaning.specs.Signatures.{literal_type};
ghost use Rattle.px_eval.specs.Table.{values_of};

use crate::table::Rows;
use px_arrays::{BooleanArray, IntegerArray, IntegerArrayBuilder};
use px_column::Buffer;
use px_expr::LiteralValue;
use px_integers::Integer;
use px_types::PlanError;
use std::alloc::Global;

/// The number in one row.
fn one_number<T: Integer>(alloc: Global, x: T) -> Result<IntegerArray<T>, PlanError>
    ensures { GivesOrMemory result (Some (IntegerValue (T.integer x)) ∷ []) }
{
    let mut rows = IntegerArrayBuilder::with_capacity(alloc, 1)?;
    rows.push(Some(x))?;
    rows.finish()
}

/// The rows of a literal that is a column: a series as it is, else one row.
pub fn literal<'f>(alloc: Global, value: &'f LiteralValue) -> Result<Rows<'f>, PlanError>
    requires { (k : ValueType) × (literal_type (literal_rows value.now) ≡ Some k) }
    ensures ok { IfOk result (λ r. literal_rows value.now ≡ Some (values_of r)) }
    ensures err { IfErr result (λ e. e ≡ PlanError.OutOfMemory) }
{
    match value {
        LiteralValue::Series(column) => Ok(Rows::from_column(column)),
        LiteralValue::Null => Rows::new(alloc, Buffer::Null(1)),
        LiteralValue::Boolean(x) => {
            let rows = BooleanArray::from_options(alloc, &[Some(*x)])?;
            Rows::new(alloc, Buffer::Boolean(rows))
        }
        LiteralValue::UInt8(x) => Rows::new(alloc, Buffer::UInt8(one_number(alloc, *x)?)),
        LiteralValue::UInt16(x) => Rows::new(alloc, Buffer::UInt16(one_number(alloc, *x)?)),
        LiteralValue::UInt32(x) => Rows::new(alloc, Buffer::UInt32(one_number(alloc, *x)?)),
        LiteralValue::UInt64(x) => Rows::new(alloc, Buffer::UInt64(one_number(alloc, *x)?)),
        LiteralValue::Int8(x) => Rows::new(alloc, Buffer::Int8(one_number(alloc, *x)?)),
        LiteralValue::Int16(x) => Rows::new(alloc, Buffer::Int16(one_number(alloc, *x)?)),
        LiteralValue::Int32(x) => Rows::new(alloc, Buffer::Int32(one_number(alloc, *x)?)),
        LiteralValue::Int64(x) => Rows::new(alloc, Buffer::Int64(one_number(alloc, *x)?)),
        _ => unreachable!(),
    }
}
