//! The bits of all values.
ghost use Rattle.std.specs.Prelude.{◌≡◌, ◌⊎◌};
ghost use Rattle.px_base.specs.Answer.{GivesOrMemory, GivesSeen};
ghost use Rattle.px_column.specs.Buffers.{values_of};
ghost use Rattle.px_column.specs.ColumnOf.{type_of};
ghost use Rattle.px_semantics.specs.Bits.{bit_reduce_of, IsBitReduction};
ghost use Rattle.px_semantics.specs.Rows.{IsBoolean};
ghost use Rattle.px_types.specs.Integers.{IsInteger};

use crate::arms::integers;
use crate::booleans::reduce_booleans;
use crate::integers::reduce_integers;
use px_aggregates::{one_boolean, one_integer};
use px_column::{Buffer, Column};
use px_types::{BitwiseFunction, PlanError};
use std::alloc::Global;

/// The values of a buffer of Booleans or of an integer type, bit by bit by `And`, `Or` or `Xor`, in one row of its
/// type. Nulls are skipped, and the row is null where there is no value. The only error is out of memory. As Polars'
/// `bitwise_and`, `bitwise_or` and `bitwise_xor`.
pub fn bit_reduce_buffer(
    alloc: Global,
    function: BitwiseFunction,
    a: &Buffer,
) -> Result<Buffer, PlanError>
    requires reduction { IsBitReduction function }
    requires operand { IsBoolean (type_of a.now) ⊎ IsInteger (type_of a.now) }
    ensures { GivesSeen values_of result (bit_reduce_of function (values_of a.now)) }
{
    integers!(a {
        Buffer::Boolean(rows) => one_boolean(alloc, reduce_booleans(rows, function)),
        Buffer::Null(_) | Buffer::String(_) => unreachable!(),
    } => Buffer one_integer(alloc, reduce_integers(a, function)))
}

/// The same of a column, under its name.
pub fn bit_reduce(alloc: Global, function: BitwiseFunction, a: &Column) -> Result<Column, PlanError>
    requires reduction { IsBitReduction function }
    requires operand { IsBoolean a.now.values.value_type ⊎ IsInteger a.now.values.value_type }
    ensures { GivesOrMemory result (record { name = a.now.name; values = bit_reduce_of function a.now.values }) }
{
    let buffer = bit_reduce_buffer(alloc, function, a.buffer())?;
    let name = a.name().try_clone(alloc)?;
    Ok(Column::new(name, buffer))
}
