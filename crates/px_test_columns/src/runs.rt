//! Columns of equal rows but for a few, as plain data, and answers of one row.

use crate::columns::{Rows, agrees, column};
use px_column::Column;
use px_types::{PlanError, ValueType};
use std::alloc::Global;

/// A type, a number of rows, the row that they are, and the places where they are another.
pub type Run<'a> = (ValueType, usize, Option<i128>, &'a [(usize, Option<i128>)]);

/// The type of the one row of an answer, and the row.
pub type Scalar = (ValueType, Option<i128>);

/// The row at a place.
fn row_at(fill: Option<i128>, changes: &[(usize, Option<i128>)], place: usize) -> Option<i128> {
    for change in changes {
        if change.0 == place {
            return change.1;
        }
    }
    fill
}

/// A column of these rows, named `a`.
pub fn run_column(alloc: Global, run: Run) -> Result<Column, PlanError> {
    let (value_type, len, fill, changes) = run;
    let mut values = Vec::with_capacity(alloc, len)?;
    for place in 0..len {
        values.push(row_at(fill, changes, place))?;
    }
    let rows: Rows = (value_type, values.as_slice());
    column(alloc, "a", rows)
}

/// Whether the answer is the one row, in a column named `a`.
pub fn is_scalar(got: Result<Column, PlanError>, want: Scalar) -> bool {
    let (value_type, row) = want;
    let rows = [row];
    agrees(got, Ok((value_type, &rows)))
}
