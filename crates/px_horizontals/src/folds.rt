//! Folds of buffers, place by place. The rows so far have the length to which all buffers broadcast.
ghost use Rattle.std.specs.Prelude.{◌≡◌, ◌⊎◌, ◌<◌, ◌^◌, length, map, IfOk, IfErr, IfSome};
ghost use Rattle.std.specs.Simd.Lanes.{zip2};
ghost use Rattle.px_base.specs.Answer.{GivesOr, GivesOrMemory};
ghost use Rattle.px_types.specs.declared.value_type.ValueType.{ValueType};
ghost use Rattle.px_semantics.specs.Horizontals.{horizontal_rows};
ghost use Rattle.px_semantics.specs.Rows.{Row, broadcast_lengths, stretch};
ghost use Rattle.px_column.specs.Buffers.{values_of};
ghost use Rattle.px_column.specs.ColumnOf.{type_of, rows_of};
ghost use Rattle.px_horizontals.specs.Folds.{fold_lists, fold_row, FitLength};
ghost use Rattle.px_horizontals.specs.Inputs.{values_of_buffers, values_of_columns, rows_of_buffers, first_type, first_name, HaveType, AreTyped, TypesAre};

use px_column::{Buffer, Column, join_lengths};
use px_types::PlanError;
use std::alloc::{AllocError, Global};

/// A fold of buffers, by a step from the rows so far and the rows of one buffer more.
pub trait Fold {
    /// The type of the rows so far, and that of a buffer that goes with them.
    ghost takes: { ValueType → ValueType → Type 0 };

    /// A row so far, of a type, and a row of one buffer more.
    ghost step: { ValueType → Row → Row → Row };

    /// The rows so far with those of one buffer more, which has as many rows, or one that goes with each. The only
    /// error is out of memory.
    fn combine(alloc: Global, total: &Buffer, input: &Buffer) -> Result<Buffer, PlanError>
        requires takes { takes (type_of total.now) (type_of input.now) }
        requires long { (length (rows_of input.now) ≡ 1)
            ⊎ (length (rows_of input.now) ≡ length (rows_of total.now)) }
        ensures value_type { IfOk result (λ r. type_of r ≡ type_of total.now) }
        ensures rows { IfOk result (λ r. rows_of r ≡ zip2 (step (type_of total.now)) (rows_of total.now)
            (stretch (length (rows_of total.now)) (rows_of input.now))) }
        ensures err { IfErr result (λ e. e ≡ PlanError.OutOfMemory) };
}

/// The length to which the buffers broadcast, and 1 without buffers. None where they do not broadcast. The rows of
/// each are of its type.
pub fn joined_length(inputs: &[&Buffer]) -> Option<u32>
    ensures length { result ≡ broadcast_lengths (map length (rows_of_buffers inputs.now)) }
    ensures typed { IfSome result (λ _. AreTyped (values_of_buffers inputs.now)) }
{
    let mut len = 1;
    for input in inputs {
        len = join_lengths(len, input.len())?;
    }
    Some(len)
}

/// The rows of a buffer, or its one row `len` times.
fn stretched(alloc: Global, a: &Buffer, len: u32) -> Result<Buffer, PlanError>
    requires { (length (rows_of a.now) ≡ 1) ⊎ (length (rows_of a.now) ≡ len) }
    ensures value_type { IfOk result (λ r. type_of r ≡ type_of a.now) }
    ensures rows { IfOk result (λ r. rows_of r ≡ stretch len (rows_of a.now)) }
    ensures err { IfErr result (λ e. e ≡ PlanError.OutOfMemory) }
{
    if a.len() == len {
        return a.try_clone(alloc);
    }
    a.repeated(alloc, len)
}

/// The start, and then each buffer in turn.
pub fn folded_onto<F: Fold>(
    alloc: Global,
    start: Buffer,
    inputs: &[&Buffer],
) -> Result<Buffer, PlanError>
    requires takes { TypesAre (F.takes (type_of start)) inputs.now }
    requires long { FitLength (length (rows_of start)) (rows_of_buffers inputs.now) }
    ensures value_type { IfOk result (λ r. type_of r ≡ type_of start) }
    ensures rows { IfOk result (λ r. rows_of r
        ≡ fold_lists (F.step (type_of start)) (length (rows_of start)) (rows_of start)
        (rows_of_buffers inputs.now)) }
    ensures err { IfErr result (λ e. e ≡ PlanError.OutOfMemory) }
{
    let mut total = start;
    for input in inputs {
        total = F::combine(alloc, &total, input)?;
    }
    Ok(total)
}

/// The buffers, of which there is at least one, from the first on. `ShapeMismatch` where their lengths do not
/// broadcast. Else the only error is out of memory.
pub fn folded<F: Fold>(alloc: Global, inputs: &[&Buffer]) -> Result<Buffer, PlanError>
    requires some { 0 < length inputs.now }
    requires takes { F.takes (first_type (values_of_buffers inputs.now)) (first_type (values_of_buffers inputs.now)) }
    requires same { HaveType (first_type (values_of_buffers inputs.now)) (values_of_buffers inputs.now) }
    ensures typed { IfOk result (λ _. AreTyped (values_of_buffers inputs.now)) }
    ensures rows { let k = first_type (values_of_buffers inputs.now) in
        GivesOr PlanError.ShapeMismatch values_of result
        (horizontal_rows k (fold_row (F.step k)) (values_of_buffers inputs.now)) }
{
    let Some((first, rest)) = inputs.split_first() else {
        unreachable!();
    };
    let Some(len) = joined_length(inputs) else {
        return Err(PlanError::ShapeMismatch);
    };
    let start = stretched(alloc, first, len)?;
    folded_onto::<F>(alloc, start, rest)
}

/// The buffers of columns.
pub fn buffers_of<'a>(alloc: Global, columns: &'a [Column]) -> Result<Vec<&'a Buffer>, AllocError>
    ensures { IfOk result (λ v. values_of_buffers v.items ≡ values_of_columns columns.now) }
{
    columns.iter().map(|c| c.buffer()).collect(alloc)
}

/// The buffer under the name of the first column, of which there is at least one.
pub fn named(alloc: Global, columns: &[Column], buffer: Buffer) -> Result<Column, PlanError>
    requires { 0 < length columns.now }
    ensures { GivesOrMemory result
        (record { name = first_name columns.now; values = values_of buffer }) }
{
    let name = columns[0].name().try_clone(alloc)?;
    Ok(Column::new(name, buffer))
}

/// The columns, of which there is at least one, from the first on, under the name of the first. `ShapeMismatch`
/// where their lengths do not broadcast. Else the only error is out of memory.
pub fn folded_columns<F: Fold>(alloc: Global, inputs: &[Column]) -> Result<Column, PlanError>
    requires some { 0 < length inputs.now }
    requires takes { F.takes (first_type (values_of_columns inputs.now)) (first_type (values_of_columns inputs.now)) }
    requires same { HaveType (first_type (values_of_columns inputs.now)) (values_of_columns inputs.now) }
    ensures typed { IfOk result (λ _. AreTyped (values_of_columns inputs.now)) }
    ensures name { IfOk result (λ c. c.name ≡ first_name inputs.now) }
    ensures rows { let k = first_type (values_of_columns inputs.now) in
        GivesOr PlanError.ShapeMismatch (λ c. c.values) result
        (horizontal_rows k (fold_row (F.step k)) (values_of_columns inputs.now)) }
{
    let buffers = buffers_of(alloc, inputs)?;
    let buffer = folded::<F>(alloc, buffers.as_slice())?;
    named(alloc, inputs, buffer)
}
