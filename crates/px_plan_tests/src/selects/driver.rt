//! A row of a table as plain data: it is read, selected from, and what is answered is written.
ghost use Rattle.std.specs.Prelude.{◌≡◌, ◌<◌};

use px_column::{ColumnList, Frame};
use px_eval::{Collected, run_select};
use px_expr::{Context, Expr, ExprList, KernelList};
use px_texts::{read_column, read_text, write_column, write_text};
use px_types::{PlanError, Steps};
use std::alloc::Global;
use std::marker::Brand;
use std::sync::ledger::{Blank, Ledger};

/// The columns of a frame, expressions, and the answer: the columns, the rewritten expressions and
/// the number of rewrites, or the error.
pub type Row = (&'static str, &'static str, &'static str);

fn frame_of(alloc: Global, text: &str) -> Result<Frame, PlanError> {
    let mut columns = ColumnList::new(alloc);
    for word in text.split_whitespace() {
        columns.try_push(read_column(alloc, word)?)?;
    }
    Frame::new(alloc, columns)
}

fn columns_text(alloc: Global, columns: &ColumnList) -> Result<String, PlanError> {
    let mut text = String::new(alloc);
    for column in columns.as_slice() {
        write_column(alloc, &mut text, column)?;
    }
    Ok(text)
}

fn trees_text(alloc: Global, trees: &ExprList) -> Result<String, PlanError> {
    let mut text = String::new(alloc);
    for tree in trees.as_slice() {
        write_text(alloc, &mut text, tree)?;
    }
    Ok(text)
}

fn collected_text(alloc: Global, collected: &Collected) -> Result<String, PlanError> {
    let columns = columns_text(alloc, collected.columns())?;
    let trees = trees_text(alloc, collected.trees())?;
    let rewrites = collected.rewrites();
    Ok(format!(in alloc; "{columns}; {trees}; {rewrites}")?)
}

fn selected<L: Ledger>(
    alloc: Global,
    frame: &Frame,
    exprs: &[Expr],
    context: Context,
    blank: Blank,
) -> Result<String, PlanError>
    requires name { blank.name ≡ L.name }
    requires parts { blank.parts ≡ L.parts }
    requires one { 0 < L.parts }
{
    let kernels = KernelList::new(alloc);
    let mut steps: Steps<L> = Steps::new(blank);
    match run_select(alloc, frame, exprs, context, &kernels, &mut steps) {
        Ok(collected) => collected_text(alloc, &collected),
        Err(e) => Ok(format!(in alloc; "{e}")?),
    }
}

fn answer(alloc: Global, context: Context, row: Row) -> Result<String, PlanError> {
    let frame = frame_of(alloc, row.0)?;
    let exprs = read_text(alloc, row.1)?;
    selected::<Brand>(alloc, &frame, exprs.as_slice(), context, Blank::new(1))
}

/// The first answer that is not the one of its row, or nothing.
pub fn first_wrong(alloc: Global, context: Context, rows: &[Row]) -> Result<String, PlanError> {
    for row in rows {
        let answer = answer(alloc, context, *row)?;
        if answer.as_str() != row.2 {
            return Ok(answer);
        }
    }
    Ok(String::new(alloc))
}
