//! Copies of expressions.
ghost use Rattle.px_base.specs.Answer.{GivesOrMemory};

use crate::expr::{AggExpr, Expr, ExprList};
use px_types::{Boxed, List, PlanError, boxed};
use std::alloc::Global;

#[cycle(clone)]
fn clone_boxed(alloc: Global, expr: &Boxed<Expr>) -> Result<Boxed<Expr>, PlanError>
    ensures { GivesOrMemory result expr.now }
{
    boxed(alloc, clone_expr(alloc, expr.get())?)
}

#[cycle(clone)]
fn clone_expr(alloc: Global, expr: &Expr) -> Result<Expr, PlanError>
    ensures { GivesOrMemory result expr.now }
{
    match expr {
        Expr::Alias(input, name) => Ok(Expr::Alias(
            clone_boxed(alloc, input)?,
            name.try_clone(alloc)?,
        )),
        Expr::Column(name) => Ok(Expr::Column(name.try_clone(alloc)?)),
        Expr::Columns(names) => Ok(Expr::Columns(names.try_clone(alloc)?)),
        Expr::DtypeColumn(dtypes) => Ok(Expr::DtypeColumn(dtypes.try_clone(alloc)?)),
        Expr::IndexColumn(indices) => Ok(Expr::IndexColumn(indices.try_clone(alloc)?)),
        Expr::Literal(value) => Ok(Expr::Literal(value.try_clone(alloc)?)),
        Expr::BinaryExpr { left, op, right } => Ok(Expr::BinaryExpr {
            left: clone_boxed(alloc, left)?,
            op: *op,
            right: clone_boxed(alloc, right)?,
        }),
        Expr::Cast {
            expr,
            dtype,
            options,
        } => Ok(Expr::Cast {
            expr: clone_boxed(alloc, expr)?,
            dtype: dtype.try_clone(alloc)?,
            options: *options,
        }),
        Expr::Gather {
            expr,
            idx,
            returns_scalar,
        } => Ok(Expr::Gather {
            expr: clone_boxed(alloc, expr)?,
            idx: clone_boxed(alloc, idx)?,
            returns_scalar: *returns_scalar,
        }),
        Expr::Slice {
            input,
            offset,
            length,
        } => Ok(Expr::Slice {
            input: clone_boxed(alloc, input)?,
            offset: clone_boxed(alloc, offset)?,
            length: clone_boxed(alloc, length)?,
        }),
        Expr::Filter { input, by } => Ok(Expr::Filter {
            input: clone_boxed(alloc, input)?,
            by: clone_boxed(alloc, by)?,
        }),
        Expr::Ternary {
            predicate,
            truthy,
            falsy,
        } => Ok(Expr::Ternary {
            predicate: clone_boxed(alloc, predicate)?,
            truthy: clone_boxed(alloc, truthy)?,
            falsy: clone_boxed(alloc, falsy)?,
        }),
        Expr::Agg(agg) => Ok(Expr::Agg(clone_agg(alloc, agg)?)),
        Expr::Function {
            input,
            function,
            options,
        } => Ok(Expr::Function {
            input: clone_exprs(alloc, input)?,
            function: function.try_clone(alloc)?,
            options: *options,
        }),
        Expr::AnonymousFunction {
            input,
            kernel,
            options,
        } => Ok(Expr::AnonymousFunction {
            input: clone_exprs(alloc, input)?,
            kernel: *kernel,
            options: *options,
        }),
        Expr::Explode(input) => Ok(Expr::Explode(clone_boxed(alloc, input)?)),
        Expr::Exclude(input, excluded) => Ok(Expr::Exclude(
            clone_boxed(alloc, input)?,
            excluded.try_clone(alloc)?,
        )),
        Expr::Len => Ok(Expr::Len),
        Expr::Nth(n) => Ok(Expr::Nth(*n)),
        Expr::Wildcard => Ok(Expr::Wildcard),
    }
}

#[cycle(clone)]
fn clone_agg(alloc: Global, agg: &AggExpr) -> Result<AggExpr, PlanError>
    ensures { GivesOrMemory result agg.now }
{
    match agg {
        AggExpr::Min(input) => Ok(AggExpr::Min(clone_boxed(alloc, input)?)),
        AggExpr::Max(input) => Ok(AggExpr::Max(clone_boxed(alloc, input)?)),
        AggExpr::Median(input) => Ok(AggExpr::Median(clone_boxed(alloc, input)?)),
        AggExpr::NUnique(input) => Ok(AggExpr::NUnique(clone_boxed(alloc, input)?)),
        AggExpr::First(input) => Ok(AggExpr::First(clone_boxed(alloc, input)?)),
        AggExpr::Last(input) => Ok(AggExpr::Last(clone_boxed(alloc, input)?)),
        AggExpr::Mean(input) => Ok(AggExpr::Mean(clone_boxed(alloc, input)?)),
        AggExpr::Implode(input) => Ok(AggExpr::Implode(clone_boxed(alloc, input)?)),
        AggExpr::Count(input, include_nulls) => Ok(AggExpr::Count(
            clone_boxed(alloc, input)?,
            *include_nulls,
        )),
        AggExpr::Quantile {
            expr,
            quantile,
            method,
        } => Ok(AggExpr::Quantile {
            expr: clone_boxed(alloc, expr)?,
            quantile: clone_boxed(alloc, quantile)?,
            method: *method,
        }),
        AggExpr::Sum(input) => Ok(AggExpr::Sum(clone_boxed(alloc, input)?)),
        AggExpr::AggGroups(input) => Ok(AggExpr::AggGroups(clone_boxed(alloc, input)?)),
        AggExpr::Std(input, ddof) => Ok(AggExpr::Std(clone_boxed(alloc, input)?, *ddof)),
        AggExpr::Var(input, ddof) => Ok(AggExpr::Var(clone_boxed(alloc, input)?, *ddof)),
    }
}

#[cycle(clone)]
fn clone_exprs(alloc: Global, exprs: &ExprList) -> Result<ExprList, PlanError>
    ensures { GivesOrMemory result exprs.now }
{
    let mut cloned = List::new(alloc);
    for expr in exprs.as_slice() {
        cloned.try_push(clone_expr(alloc, expr)?)?;
    }
    Ok(cloned)
}

impl Expr {
    /// An equal expression.
    pub fn try_clone(&self, alloc: Global) -> Result<Expr, PlanError>
        ensures { GivesOrMemory result self.now }
    {
        clone_expr(alloc, self)
    }
}
