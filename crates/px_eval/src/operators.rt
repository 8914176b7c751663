//! The operators on buffers.
ghost use Rattle.std.specs.Prelude.{◌≡◌, ◌⊎◌, Some, None, IfOk, IfErr};
ghost use Rattle.px_base.specs.Answer.{GivesOr};
ghost use Rattle.px_semantics.specs.Casts.{cast_to, HasCast};
ghost use Rattle.px_semantics.specs.Logic.{logic_rows, IsLogic};
ghost use Rattle.px_semantics.specs.Selections.{select_rows};
ghost use Rattle.px_semantics.specs.Rows.{IsBoolean};
ghost use Rattle.px_types.specs.Integers.{IsInteger};
ghost use Rattle.px_types.specs.ValueTypes.{value_type_of};
ghost use Rattle.px_column.specs.ColumnOf.{type_of};
ghost use Rattle.px_column.specs.Buffers.{values_of};
ghost use Rattle.px_meaning.specs.Mean.{group_rows};
ghost use Rattle.px_meaning.specs.Signatures.{group_of};
ghost use Rattle.px_eval.specs.Own.{TakesTwo};

use px_column::Buffer;
use px_kernels::{arith_buffers, cast_buffer, compare_buffers, zip_with_buffers};
use px_types::{CastOptions, DataType, Operator, PlanError};
use std::alloc::Global;

/// Row by row `And`, `Or` or `Xor` of two buffers, both Boolean or of one integer type.
fn logic(alloc: Global, op: Operator, a: &Buffer, b: &Buffer) -> Result<Buffer, PlanError>
    requires logic { IsLogic op }
    requires operand { IsBoolean (type_of a.now) ⊎ IsInteger (type_of a.now) }
    requires same { type_of a.now ≡ type_of b.now }
    ensures rows { GivesOr PlanError.ShapeMismatch (λ c. values_of c) result
        (logic_rows op (values_of a.now) (values_of b.now)) }
{
    a.logic(alloc, op, b)
}

/// Row by row what the operator gives of two buffers of a type that it takes.
pub fn binary(alloc: Global, op: Operator, a: &Buffer, b: &Buffer) -> Result<Buffer, PlanError>
    requires { TakesTwo op (type_of a.now) (type_of b.now) }
    ensures { GivesOr PlanError.ShapeMismatch (λ b. values_of b) result
        (group_rows (group_of op) op (values_of a.now) (values_of b.now)) }
{
    match op {
        Operator::Plus => arith_buffers(alloc, op, a, b),
        Operator::Minus => arith_buffers(alloc, op, a, b),
        Operator::Multiply => arith_buffers(alloc, op, a, b),
        Operator::Divide => arith_buffers(alloc, op, a, b),
        Operator::FloorDivide => arith_buffers(alloc, op, a, b),
        Operator::Modulus => arith_buffers(alloc, op, a, b),
        Operator::Eq => compare_buffers(alloc, op, a, b),
        Operator::EqValidity => compare_buffers(alloc, op, a, b),
        Operator::NotEq => compare_buffers(alloc, op, a, b),
        Operator::NotEqValidity => compare_buffers(alloc, op, a, b),
        Operator::Lt => compare_buffers(alloc, op, a, b),
        Operator::LtEq => compare_buffers(alloc, op, a, b),
        Operator::Gt => compare_buffers(alloc, op, a, b),
        Operator::GtEq => compare_buffers(alloc, op, a, b),
        Operator::And => logic(alloc, op, a, b),
        Operator::LogicalAnd => logic(alloc, Operator::And, a, b),
        Operator::Or => logic(alloc, op, a, b),
        Operator::LogicalOr => logic(alloc, Operator::Or, a, b),
        Operator::Xor => logic(alloc, op, a, b),
        Operator::TrueDivide => unreachable!(),
    }
}

/// The rows in another type.
pub fn cast(
    alloc: Global,
    a: &Buffer,
    to: &DataType,
    options: CastOptions,
) -> Result<Buffer, PlanError>
    requires { HasCast (type_of a.now) (value_type_of to.now) }
    ensures { GivesOr PlanError.InvalidCast (λ b. values_of b) result (cast_to options to.now (values_of a.now)) }
{
    cast_buffer(alloc, a, to, options)
}

/// Row by row the first where the mask is true, else the second.
pub fn select_by_mask(
    alloc: Global,
    mask: &Buffer,
    a: &Buffer,
    b: &Buffer,
) -> Result<Buffer, PlanError>
    requires mask { IsBoolean (type_of mask.now) }
    requires same { type_of a.now ≡ type_of b.now }
    ensures { GivesOr PlanError.ShapeMismatch (λ b. values_of b) result
        (select_rows (values_of mask.now) (values_of a.now) (values_of b.now)) }
{
    zip_with_buffers(alloc, mask, a, b)
}
