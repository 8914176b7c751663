//! The work that is timed.
ghost use Rattle.std.specs.Prelude.{◌≡◌, ◌<◌, IsTrue};
ghost use Rattle.px_types.specs.declared.value_type.ValueType.TheVariants as types;

use px_column::{Column, ColumnList, Frame};
use px_eval::run_select;
use px_expr::{Context, Expr, KernelList};
use px_kernels::{compare, fused, is_not_null, kleene_and};
use px_types::{DataType, FusedOperator, Operator, PlanError, Steps, ValueType};
use std::alloc::Global;
use std::marker::Brand;
use std::sync::ledger::{Blank, Ledger};

/// What is done with a frame and expressions.
#[derive(Clone, Copy)]
pub enum Work {
    /// Selects the expressions from the frame.
    Select(Context),
    /// Calls the kernels of the predicate, without expressions.
    Kernels,
}

impl Work {
    /// Does the work once, and gives a number that depends on the answer, so that no work is left out.
    pub fn run(self, alloc: Global, frame: &Frame, exprs: &[Expr]) -> Result<u64, PlanError> {
        match self {
            Work::Select(context) => {
                select::<Brand>(alloc, frame, exprs, context, Blank::new(1))
            }
            Work::Kernels => kernels(alloc, frame),
        }
    }
}

fn select<L: Ledger>(
    alloc: Global,
    frame: &Frame,
    exprs: &[Expr],
    context: Context,
    blank: Blank,
) -> Result<u64, PlanError>
    requires name { blank.name ≡ L.name }
    requires parts { blank.parts ≡ L.parts }
    requires one { 0 < L.parts }
{
    let kernels = KernelList::new(alloc);
    let mut steps: Steps<L> = Steps::new(blank);
    let collected = run_select(alloc, frame, exprs, context, &kernels, &mut steps)?;
    let nulls = all_nulls(collected.columns());
    drop(collected);
    Ok(nulls)
}

fn sum(alloc: Global, a: &Column, b: &Column, c: &Column) -> Result<Column, PlanError> {
    if !is_number(a.value_type()) || !is_number(b.value_type()) || !is_number(c.value_type()) {
        return Err(PlanError::InvalidOperation);
    }
    fused(alloc, FusedOperator::MultiplyAdd, c, a, b)
}

fn fused_sum(alloc: Global, frame: &Frame) -> Result<Column, PlanError> {
    match (frame.column("a"), frame.column("b"), frame.column("c")) {
        (Some(a), Some(b), Some(c)) => sum(alloc, a, b, c),
        _ => Err(PlanError::OutOfBounds),
    }
}

fn is_number(value_type: ValueType) -> bool
    ensures { IsTrue result → value_type ≡ types.Int32 }
{
    match value_type {
        ValueType::Int32 => true,
        _ => false,
    }
}

fn is_mask(value_type: ValueType) -> bool
    ensures { IsTrue result → value_type ≡ types.Boolean }
{
    match value_type {
        ValueType::Boolean => true,
        _ => false,
    }
}

fn greater(alloc: Global, a: &Column, b: &Column) -> Result<Column, PlanError> {
    if !is_number(a.value_type()) || !is_number(b.value_type()) {
        return Err(PlanError::InvalidOperation);
    }
    compare(alloc, Operator::Gt, a, b)
}

fn above_zero(alloc: Global, sum: &Column) -> Result<Column, PlanError> {
    let zero = Column::new_int(alloc, "literal", DataType::Int32, &[Some(0)])?;
    let mask = greater(alloc, sum, &zero);
    drop(zero);
    mask
}

fn positive(alloc: Global, frame: &Frame) -> Result<Column, PlanError> {
    let sum = fused_sum(alloc, frame)?;
    let mask = above_zero(alloc, &sum);
    drop(sum);
    mask
}

fn is_known(alloc: Global, frame: &Frame) -> Result<Column, PlanError> {
    match frame.column("p") {
        Some(p) => is_not_null(alloc, p),
        None => Err(PlanError::OutOfBounds),
    }
}

fn nulls(mask: Result<Column, PlanError>) -> Result<u64, PlanError> {
    let mask = mask?;
    let count = u64::from(mask.null_count());
    drop(mask);
    Ok(count)
}

fn both(alloc: Global, a: &Column, b: &Column) -> Result<Column, PlanError> {
    if !is_mask(a.value_type()) || !is_mask(b.value_type()) {
        return Err(PlanError::InvalidOperation);
    }
    kleene_and(alloc, a, b)
}

fn with_known(alloc: Global, frame: &Frame, positive: &Column) -> Result<u64, PlanError> {
    let is_known = is_known(alloc, frame)?;
    let count = nulls(both(alloc, positive, &is_known));
    drop(is_known);
    count
}

fn kernels(alloc: Global, frame: &Frame) -> Result<u64, PlanError> {
    let positive = positive(alloc, frame)?;
    let count = with_known(alloc, frame, &positive);
    drop(positive);
    count
}

fn all_nulls(columns: &ColumnList) -> u64 {
    let mut nulls = 0u64;
    for column in columns.as_slice() {
        nulls = nulls.wrapping_add(u64::from(column.null_count()));
    }
    nulls
}
