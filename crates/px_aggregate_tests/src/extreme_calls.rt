//! Calls on columns that are given as plain data.
ghost use Rattle.std.specs.Prelude.{IsTrue};
ghost use Rattle.px_semantics.specs.Bits.{IsBitReduction};

use px_column::Column;
use px_extremes::{arg_max, arg_min, bit_reduce, max, min};
use px_test_columns::{Run, Scalar, is_boolean_or_integer, is_scalar, run_column, wrong_call};
use px_types::{BitwiseFunction, PlanError};
use std::alloc::Global;

/// What is made of all rows.
#[derive(Clone, Copy)]
pub enum Call {
    Min,
    Max,
    ArgMin,
    ArgMax,
    Bits(BitwiseFunction),
}

fn is_reduction(function: BitwiseFunction) -> bool
    ensures { IsTrue result → IsBitReduction function }
{
    match function {
        BitwiseFunction::And | BitwiseFunction::Or | BitwiseFunction::Xor => true,
        _ => false,
    }
}

fn bits(alloc: Global, function: BitwiseFunction, a: &Column) -> Result<Column, PlanError> {
    if !is_boolean_or_integer(a.value_type()) {
        return wrong_call();
    }
    if !is_reduction(function) {
        return wrong_call();
    }
    bit_reduce(alloc, function, a)
}

fn answer(alloc: Global, call: Call, run: Run) -> Result<Column, PlanError> {
    let a = run_column(alloc, run)?;
    match call {
        Call::Min => min(alloc, &a),
        Call::Max => max(alloc, &a),
        Call::ArgMin => arg_min(alloc, &a),
        Call::ArgMax => arg_max(alloc, &a),
        Call::Bits(function) => bits(alloc, function, &a),
    }
}

/// Whether the call on these rows gives the wanted row.
pub fn gives(alloc: Global, call: Call, run: Run, want: Scalar) -> bool {
    is_scalar(answer(alloc, call, run), want)
}
