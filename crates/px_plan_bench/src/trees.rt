//! The expressions that the work is done on.

use px_expr::{Expr, ExprList, LiteralValue, binary_expr};
use px_functions::{BooleanFunction, FunctionExpr};
use px_types::{FunctionOptions, List, Operator, PlanError, SmallStr};
use std::alloc::Global;

/// The leaves of a balanced tree.
#[derive(Clone, Copy)]
pub enum Leaf {
    /// An integer column.
    Number,
    /// A Boolean column.
    Mask,
    /// A Boolean column that two rewrites make of five nodes.
    Longer,
}

fn column(alloc: Global, name: &str) -> Result<Expr, PlanError> {
    Ok(Expr::Column(SmallStr::new(alloc, name)?))
}

fn and_true(alloc: Global, expr: Expr) -> Result<Expr, PlanError> {
    binary_expr(
        alloc,
        expr,
        Operator::And,
        Expr::Literal(LiteralValue::Boolean(true)),
    )
}

fn longer(alloc: Global) -> Result<Expr, PlanError> {
    let inner = and_true(alloc, column(alloc, "p")?)?;
    and_true(alloc, inner)
}

fn leaf_of(alloc: Global, leaf: Leaf) -> Result<Expr, PlanError> {
    match leaf {
        Leaf::Number => column(alloc, "a"),
        Leaf::Mask => column(alloc, "p"),
        Leaf::Longer => longer(alloc),
    }
}

/// A balanced tree of so many leaves.
pub fn balanced(alloc: Global, op: Operator, leaves: Leaf, count: u32) -> Result<Expr, PlanError> {
    if count <= 1 {
        return leaf_of(alloc, leaves);
    }
    let left = balanced(alloc, op, leaves, count / 2)?;
    let right = balanced(alloc, op, leaves, count - count / 2)?;
    binary_expr(alloc, left, op, right)
}

fn negated(alloc: Global, expr: Expr) -> Result<Expr, PlanError> {
    let mut input = List::new(alloc);
    input.try_push(expr)?;
    Ok(Expr::Function {
        input,
        function: FunctionExpr::Boolean(BooleanFunction::Not),
        options: FunctionOptions::default(),
    })
}

/// A column under so many nodes `not`.
pub fn path(alloc: Global, count: u32) -> Result<Expr, PlanError> {
    let mut expr = column(alloc, "p")?;
    for _i in 0..count {
        expr = negated(alloc, expr)?;
    }
    Ok(expr)
}

/// So many columns, each under a name of its own.
pub fn named_columns(alloc: Global, count: u32) -> Result<ExprList, PlanError> {
    let mut exprs = List::new(alloc);
    for i in 0..count {
        let name = format!(in alloc; "n{i}")?;
        exprs.try_push(column(alloc, "a")?.alias(alloc, name.as_str())?)?;
    }
    Ok(exprs)
}

/// A list of one expression.
pub fn only(alloc: Global, expr: Expr) -> Result<ExprList, PlanError> {
    let mut exprs = List::new(alloc);
    exprs.try_push(expr)?;
    Ok(exprs)
}
