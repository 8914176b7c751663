//! Three-valued logic on columns, bit by bit on integers, and tests for null.
ghost use Rattle.std.specs.Prelude.{◌≡◌, ◌⊎◌, Some, None, IfOk, IfErr};
ghost use Rattle.px_base.specs.Answer.{GivesOrMemory, GivesOr};
ghost use Rattle.px_types.specs.Integers.{IsInteger};
ghost use Rattle.px_semantics.specs.Logic.{logic_rows, inverse_rows, null_row, value_row, tested_rows};
ghost use Rattle.px_semantics.specs.Rows.{IsBoolean};
ghost use Rattle.px_types.specs.declared.operator.Operator.TheVariants.{And, Or, Xor};

use px_arrays::BooleanArray;
use px_column::{Buffer, Column};
use px_types::{Operator, PlanError};
use std::alloc::Global;

/// Row by row: true where both are true, false where one is false, else null; of integers the bits
/// that both have, null where one is null. Two columns of one type, `Boolean` or an integer type,
/// under the name of the first. A column of one row goes with each row of the other.
/// `ShapeMismatch` where the lengths do not broadcast. Else the only error is out of memory. The
/// logic is Kleene's, as Polars' `&`.
pub fn kleene_and(alloc: Global, a: &Column, b: &Column) -> Result<Column, PlanError>
    requires operand { IsBoolean a.now.values.value_type ⊎ IsInteger a.now.values.value_type }
    requires same { a.now.values.value_type ≡ b.now.values.value_type }
    ensures name { IfOk result (λ c. c.name ≡ a.now.name) }
    ensures rows { GivesOr PlanError.ShapeMismatch (λ c. c.values) result
        (logic_rows And a.now.values b.now.values) }
{
    let buffer = a.buffer().logic(alloc, Operator::And, b.buffer())?;
    let name = a.name().try_clone(alloc)?;
    Ok(Column::new(name, buffer))
}

/// Row by row: true where one is true, false where both are false, else null; of integers the bits
/// that one has, null where one is null. Otherwise as `kleene_and`.
pub fn kleene_or(alloc: Global, a: &Column, b: &Column) -> Result<Column, PlanError>
    requires operand { IsBoolean a.now.values.value_type ⊎ IsInteger a.now.values.value_type }
    requires same { a.now.values.value_type ≡ b.now.values.value_type }
    ensures name { IfOk result (λ c. c.name ≡ a.now.name) }
    ensures rows { GivesOr PlanError.ShapeMismatch (λ c. c.values) result
        (logic_rows Or a.now.values b.now.values) }
{
    let buffer = a.buffer().logic(alloc, Operator::Or, b.buffer())?;
    let name = a.name().try_clone(alloc)?;
    Ok(Column::new(name, buffer))
}

/// Row by row whether just one is true, or of integers the bits that just one has, null where one is
/// null. Otherwise as `kleene_and`.
pub fn kleene_xor(alloc: Global, a: &Column, b: &Column) -> Result<Column, PlanError>
    requires operand { IsBoolean a.now.values.value_type ⊎ IsInteger a.now.values.value_type }
    requires same { a.now.values.value_type ≡ b.now.values.value_type }
    ensures name { IfOk result (λ c. c.name ≡ a.now.name) }
    ensures rows { GivesOr PlanError.ShapeMismatch (λ c. c.values) result
        (logic_rows Xor a.now.values b.now.values) }
{
    let buffer = a.buffer().logic(alloc, Operator::Xor, b.buffer())?;
    let name = a.name().try_clone(alloc)?;
    Ok(Column::new(name, buffer))
}

/// Row by row the negation of a Boolean, or the complement of an integer, null kept: a column of
/// the same name. The only error is out of memory.
pub fn negate_bitwise(alloc: Global, a: &Column) -> Result<Column, PlanError>
    requires { IsBoolean a.now.values.value_type ⊎ IsInteger a.now.values.value_type }
    ensures { GivesOrMemory result (record { name = a.now.name; values = inverse_rows a.now.values }) }
{
    let buffer = a.buffer().inverse(alloc)?;
    let name = a.name().try_clone(alloc)?;
    Ok(Column::new(name, buffer))
}

/// Row by row whether it is null, which is never null itself: a Boolean column of the same name.
/// The only error is out of memory.
pub fn is_null(alloc: Global, a: &Column) -> Result<Column, PlanError>
    ensures { GivesOrMemory result (record { name = a.now.name; values = tested_rows null_row a.now.values }) }
{
    let rows = a.buffer().null_flags(alloc)?;
    let name = a.name().try_clone(alloc)?;
    Ok(Column::new(name, Buffer::Boolean(rows)))
}

/// Row by row whether it is not null, which is never null itself: a Boolean column of the same
/// name. The only error is out of memory.
pub fn is_not_null(alloc: Global, a: &Column) -> Result<Column, PlanError>
    ensures { GivesOrMemory result (record { name = a.now.name; values = tested_rows value_row a.now.values }) }
{
    let valid = a.buffer().valid(alloc)?;
    let rows = BooleanArray::non_null(alloc, valid)?;
    let name = a.name().try_clone(alloc)?;
    Ok(Column::new(name, Buffer::Boolean(rows)))
}
