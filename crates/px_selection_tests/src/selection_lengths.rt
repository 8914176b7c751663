//! Calls on columns of given lengths, whose rows are the numbers from 0 on, with a null at each end.

use crate::selection_calls::{Call, gives};
use px_test_columns::{Rows, Want};
use px_types::PlanError;
use px_types::ValueType::{Boolean, Int64};
use std::alloc::Global;

/// A kernel with its operands after the first.
#[derive(Clone, Copy)]
pub enum LongCall {
    Reverse,
    DropNulls,
    /// A mask that is true at each row so far from the last that was.
    Filter(i64),
    /// Indices so far from one another, and how many.
    Gather(i64, usize),
    /// The offset and the length.
    Slice(i128, i128),
    /// The number of rows of the first column; the second has the others.
    Append(u32),
}

/// Row `i` of `len` rows.
fn row(i: i64, len: usize) -> Option<i128> {
    if i == 0 || i128::from(i) + 1 == len as i128 {
        None
    } else {
        Some(i128::from(i))
    }
}

/// So many rows of `len` rows, from one on, in steps.
fn rows(
    alloc: Global,
    len: usize,
    first: i64,
    step: i64,
    count: usize,
) -> Result<Vec<Option<i128>>, PlanError> {
    let mut rows = Vec::with_capacity(alloc, count)?;
    let mut i = first;
    for _ in 0..count {
        rows.push(row(i, len))?;
        i = i.saturating_add(step);
    }
    Ok(rows)
}

/// A mask of `len` rows: true at the first row and then after each step, and else false or null by turns.
fn mask(alloc: Global, len: usize, step: i64) -> Result<Vec<Option<i128>>, PlanError> {
    let mut flags = Vec::with_capacity(alloc, len)?;
    let mut left = 0_i64;
    for i in 0..len {
        flags.push(if left == 0 {
            Some(1)
        } else if i % 2 == 0 {
            Some(0)
        } else {
            None
        })?;
        left = if left == 0 {
            step.saturating_sub(1)
        } else {
            left.saturating_sub(1)
        };
    }
    Ok(flags)
}

/// The numbers from 0 on in steps, so many.
fn indices(alloc: Global, step: i64, count: usize) -> Result<Vec<Option<i128>>, PlanError> {
    let mut numbers = Vec::with_capacity(alloc, count)?;
    let mut i = 0_i64;
    for _ in 0..count {
        numbers.push(Some(i128::from(i)))?;
        i = i.saturating_add(step);
    }
    Ok(numbers)
}

/// Whether the first `n` of `len` rows with the others after them are the wanted rows.
fn appends(alloc: Global, len: usize, n: u32, want: Want) -> Result<bool, PlanError> {
    let m = n as usize;
    let a = rows(alloc, len, 0, 1, m)?;
    let b = rows(alloc, len, i64::from(n), 1, len.saturating_sub(m))?;
    Ok(gives(
        alloc,
        Call::Append((Int64, b.as_slice())),
        (Int64, a.as_slice()),
        want,
    ))
}

/// Whether the call on a column of `len` rows gives the wanted ones.
fn answers(alloc: Global, len: usize, call: LongCall, want: Want) -> Result<bool, PlanError> {
    let all = rows(alloc, len, 0, 1, len)?;
    let a: Rows = (Int64, all.as_slice());
    match call {
        LongCall::Reverse => Ok(gives(alloc, Call::Reverse, a, want)),
        LongCall::DropNulls => Ok(gives(alloc, Call::DropNulls, a, want)),
        LongCall::Filter(step) => {
            let by = mask(alloc, len, step)?;
            Ok(gives(alloc, Call::Filter((Boolean, by.as_slice())), a, want))
        }
        LongCall::Gather(step, count) => {
            let idx = indices(alloc, step, count)?;
            Ok(gives(alloc, Call::Gather((Int64, idx.as_slice()), false), a, want))
        }
        LongCall::Slice(offset, length) => {
            let offset = [Some(offset)];
            let length = [Some(length)];
            Ok(gives(
                alloc,
                Call::Slice((Int64, &offset), (Int64, &length)),
                a,
                want,
            ))
        }
        LongCall::Append(n) => appends(alloc, len, n, want),
    }
}

fn has_rows(
    alloc: Global,
    len: usize,
    call: LongCall,
    first: i64,
    step: i64,
    count: usize,
) -> Result<bool, PlanError> {
    let want = rows(alloc, len, first, step, count)?;
    answers(alloc, len, call, Ok((Int64, want.as_slice())))
}

/// Whether the call on a column of `len` rows gives so many of them, from one on, in steps.
pub fn gives_rows(
    alloc: Global,
    len: usize,
    call: LongCall,
    first: i64,
    step: i64,
    count: usize,
) -> bool {
    match has_rows(alloc, len, call, first, step, count) {
        Ok(same) => same,
        Err(_) => false,
    }
}
