//! Functions on buffers.
ghost use Rattle.std.specs.Prelude.{◌≡◌, ◌⊎◌, [], ◌∷◌, IfOk, IfErr};
ghost use Rattle.px_base.specs.Answer.{GivesOr};
ghost use Rattle.px_semantics.specs.Fused.{fused_rows};
ghost use Rattle.px_semantics.specs.Logic.{null_row, value_row, tested_rows, inverse_rows};
ghost use Rattle.px_semantics.specs.Rows.{IsBoolean};
ghost use Rattle.px_types.specs.Integers.{IsInteger};
ghost use Rattle.px_column.specs.ColumnOf.{type_of};
ghost use Rattle.px_column.specs.Buffers.{values_of};
ghost use Rattle.px_meaning.specs.Mean.{function_rows};
ghost use Rattle.px_eval.specs.Own.{TakesOne};

use px_arrays::BooleanArray;
use px_column::Buffer;
use px_functions::{EvaluatedBoolean, EvaluatedFunction};
use px_kernels::{fused_buffers, negate_buffer};
use px_types::{FusedOperator, PlanError};
use std::alloc::{AllocError, Global};

/// Row by row whether it is null.
fn null_tests(alloc: Global, a: &Buffer) -> Result<Buffer, AllocError>
    ensures { IfOk result (λ b. values_of b ≡ tested_rows null_row (values_of a.now)) }
{
    let rows = a.null_flags(alloc)?;
    Ok(Buffer::Boolean(rows))
}

/// Row by row whether it is not null.
fn value_tests(alloc: Global, a: &Buffer) -> Result<Buffer, AllocError>
    ensures { IfOk result (λ b. values_of b ≡ tested_rows value_row (values_of a.now)) }
{
    let valid = a.valid(alloc)?;
    let rows = BooleanArray::non_null(alloc, valid)?;
    Ok(Buffer::Boolean(rows))
}

/// Row by row the negation of a Boolean, or the complement of an integer, null kept.
fn inverse(alloc: Global, a: &Buffer) -> Result<Buffer, AllocError>
    requires { IsBoolean (type_of a.now) ⊎ IsInteger (type_of a.now) }
    ensures { IfOk result (λ b. values_of b ≡ inverse_rows (values_of a.now)) }
{
    a.inverse(alloc)
}

/// Row by row what the function gives of a buffer of a type that it takes.
pub fn call_one(alloc: Global, function: EvaluatedFunction, a: &Buffer) -> Result<Buffer, PlanError>
    requires { TakesOne function (type_of a.now) }
    ensures { GivesOr PlanError.ShapeMismatch (λ b. values_of b) result (function_rows function (values_of a.now ∷ [])) }
{
    match function {
        EvaluatedFunction::Boolean(EvaluatedBoolean::IsNull) => Ok(null_tests(alloc, a)?),
        EvaluatedFunction::Boolean(EvaluatedBoolean::IsNotNull) => Ok(value_tests(alloc, a)?),
        EvaluatedFunction::Boolean(EvaluatedBoolean::Not) => Ok(inverse(alloc, a)?),
        EvaluatedFunction::Negate => negate_buffer(alloc, a),
        EvaluatedFunction::Fused(_) => unreachable!(),
    }
}

/// A product, and the sum or the difference with it, of three buffers of one integer type.
pub fn fused(
    alloc: Global,
    op: FusedOperator,
    a: &Buffer,
    b: &Buffer,
    c: &Buffer,
) -> Result<Buffer, PlanError>
    requires integer { IsInteger (type_of a.now) }
    requires same { type_of a.now ≡ type_of b.now }
    requires also { type_of b.now ≡ type_of c.now }
    ensures { GivesOr PlanError.ShapeMismatch (λ b. values_of b) result
        (fused_rows op (values_of a.now) (values_of b.now) (values_of c.now)) }
{
    fused_buffers(alloc, op, a, b, c)
}
