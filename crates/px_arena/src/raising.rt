//! From the nodes of an arena to expressions.
ghost use Rattle.std.specs.Prelude.{◌≡◌, IfOk, OnErr};
ghost use Rattle.px_expr.specs.Tree.{Tree, Trees, tree_of};
ghost use Rattle.px_arena.specs.Denotes.{Denotes, DenoteAll, expr_places};
ghost use Rattle.px_arena.specs.Options.{KeepsOptions, options_of};
ghost use Rattle.px_arena.specs.Lowered.{StandsFor, AllStandFor, agg_expr};

use crate::arena::Arena;
use crate::node::{AExpr, ExprIRList, IRAggExpr, Node};
use px_expr::{AggExpr, Expr, ExprList};
use px_types::{Boxed, List, PlanError, boxed};
use std::alloc::Global;

fn agg_of(agg: &IRAggExpr, input: Boxed<Expr>) -> AggExpr
    ensures { result ≡ agg_expr agg.now input }
{
    match agg {
        IRAggExpr::Min(_) => AggExpr::Min(input),
        IRAggExpr::Max(_) => AggExpr::Max(input),
        IRAggExpr::First(_) => AggExpr::First(input),
        IRAggExpr::Last(_) => AggExpr::Last(input),
        IRAggExpr::Sum(_) => AggExpr::Sum(input),
        IRAggExpr::Count(_, include_nulls) => AggExpr::Count(input, *include_nulls),
    }
}

#[cycle(raise)]
fn raise_boxed(alloc: Global, arena: &Arena, node: Node) -> Result<Boxed<Expr>, PlanError>
    requires { (t : Tree) × Denotes arena.now node.0 t }
    ensures stands { IfOk result (λ e. StandsFor arena.now node.0 e) }
    ensures err { OnErr result (result ≡ Err PlanError.OutOfMemory) }
{
    boxed(alloc, raise_expr(alloc, arena, node)?)
}

#[cycle(raise)]
fn raise_exprs(alloc: Global, arena: &Arena, places: &ExprIRList) -> Result<ExprList, PlanError>
    requires { (us : Trees) × DenoteAll arena.now (expr_places places.now.entries) us }
    ensures stands { IfOk result (λ es. AllStandFor arena.now (expr_places places.now.entries) es.entries) }
    ensures err { OnErr result (result ≡ Err PlanError.OutOfMemory) }
{
    let mut exprs = List::new(alloc);
    for place in places.as_slice() {
        let expr = raise_expr(alloc, arena, place.0)?;
        exprs.try_push(expr)?;
    }
    Ok(exprs)
}

#[cycle(raise)]
fn raise_expr(alloc: Global, arena: &Arena, node: Node) -> Result<Expr, PlanError>
    requires { (t : Tree) × Denotes arena.now node.0 t }
    ensures stands { IfOk result (λ e. StandsFor arena.now node.0 e) }
    ensures err { OnErr result (result ≡ Err PlanError.OutOfMemory) }
{
    match arena.get(node) {
        AExpr::Alias(input, name) => {
            let name = name.try_clone(alloc)?;
            let input = raise_boxed(alloc, arena, *input)?;
            Ok(Expr::Alias(input, name))
        }
        AExpr::Column(name) => Ok(Expr::Column(name.try_clone(alloc)?)),
        AExpr::Literal(value) => Ok(Expr::Literal(value.try_clone(alloc)?)),
        AExpr::BinaryExpr { left, op, right } => {
            let op = *op;
            let left = raise_boxed(alloc, arena, *left)?;
            let right = raise_boxed(alloc, arena, *right)?;
            Ok(Expr::BinaryExpr { left, op, right })
        }
        AExpr::Cast {
            expr,
            dtype,
            options,
        } => {
            let dtype = dtype.try_clone(alloc)?;
            let options = *options;
            let expr = raise_boxed(alloc, arena, *expr)?;
            Ok(Expr::Cast {
                expr,
                dtype,
                options,
            })
        }
        AExpr::Gather {
            expr,
            idx,
            returns_scalar,
        } => {
            let returns_scalar = *returns_scalar;
            let expr = raise_boxed(alloc, arena, *expr)?;
            let idx = raise_boxed(alloc, arena, *idx)?;
            Ok(Expr::Gather {
                expr,
                idx,
                returns_scalar,
            })
        }
        AExpr::Slice {
            input,
            offset,
            length,
        } => {
            let input = raise_boxed(alloc, arena, *input)?;
            let offset = raise_boxed(alloc, arena, *offset)?;
            let length = raise_boxed(alloc, arena, *length)?;
            Ok(Expr::Slice {
                input,
                offset,
                length,
            })
        }
        AExpr::Filter { input, by } => {
            let input = raise_boxed(alloc, arena, *input)?;
            let by = raise_boxed(alloc, arena, *by)?;
            Ok(Expr::Filter { input, by })
        }
        AExpr::Ternary {
            predicate,
            truthy,
            falsy,
        } => {
            let predicate = raise_boxed(alloc, arena, *predicate)?;
            let truthy = raise_boxed(alloc, arena, *truthy)?;
            let falsy = raise_boxed(alloc, arena, *falsy)?;
            Ok(Expr::Ternary {
                predicate,
                truthy,
                falsy,
            })
        }
        AExpr::Agg(agg) => {
            let input = raise_boxed(alloc, arena, agg.input())?;
            Ok(Expr::Agg(agg_of(agg, input)))
        }
        AExpr::Function {
            input,
            function,
            options,
        } => {
            let function = function.try_clone(alloc)?;
            let options = *options;
            let input = raise_exprs(alloc, arena, input)?;
            Ok(Expr::Function {
                input,
                function,
                options,
            })
        }
        AExpr::AnonymousFunction {
            input,
            kernel,
            options,
        } => {
            let kernel = *kernel;
            let options = *options;
            let input = raise_exprs(alloc, arena, input)?;
            Ok(Expr::AnonymousFunction {
                input,
                kernel,
                options,
            })
        }
        AExpr::Len => Ok(Expr::Len),
    }
}

/// The expression that the place denotes, with the options that its nodes hold.
pub fn raise(alloc: Global, arena: &Arena, node: Node) -> Result<Expr, PlanError>
    requires { (t : Tree) × Denotes arena.now node.0 t }
    ensures tree { IfOk result (λ e. (t : Tree) → Denotes arena.now node.0 t → tree_of e ≡ t) }
    ensures options { IfOk result (λ e. KeepsOptions arena.now node.0 (options_of e)) }
    ensures err { OnErr result (result ≡ Err PlanError.OutOfMemory) }
{
    raise_expr(alloc, arena, node)
}
