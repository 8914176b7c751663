//! The expressions that are selected.

use px_expr::Expr;
use px_texts::{read_expr, read_text};
use px_types::PlanError;
use std::alloc::Global;

/// `(a * b + c > 0) & ~is_null(p)`.
pub fn predicate(alloc: Global) -> Result<Vec<Expr>, PlanError> {
    read_text(alloc, "a b * c + 0 > p is_null not &")
}

fn short(alloc: Global, i: u32) -> Result<Expr, PlanError> {
    let text = format!(in alloc; "a {i} + .n{i}")?;
    read_expr(alloc, text.as_str())
}

/// So many sums of a column and a number, each under a name of its own.
pub fn short_exprs(alloc: Global, count: u32) -> Result<Vec<Expr>, PlanError> {
    let mut exprs = Vec::new(alloc);
    for i in 0..count {
        exprs.push(short(alloc, i)?)?;
    }
    Ok(exprs)
}
