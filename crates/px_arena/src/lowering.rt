//! From expressions to the nodes of an arena.
ghost use Rattle.std.specs.Prelude.{◌≡◌, ℕ, List, [], ◌∷◌, map, IfOk, OnErr};
ghost use Rattle.px_expr.specs.Tree.{tree_of, trees};
ghost use Rattle.px_arena.specs.Denotes.{Denotes, IsGrown, expr_places};
ghost use Rattle.px_arena.specs.Options.{KeepsOptions, options_of};
ghost use Rattle.px_meaning.specs.Lowerable.{IsLowerable, AreLowerable};
ghost use Rattle.px_arena.specs.Lowered.{StandsFor, AllStandFor};

use crate::arena::Arena;
use crate::node::{AExpr, ExprIR, ExprIRList, IRAggExpr, Node};
use px_expr::{AggExpr, Expr, ExprList};
use px_types::{List, PlanError};
use std::alloc::Global;

#[cycle(lower)]
fn lower_two(
    alloc: Global,
    arena: &mut Arena,
    left: &Expr,
    right: &Expr,
) -> Result<(Node, Node), PlanError>
    requires left { IsLowerable (tree_of left.now) }
    requires right { IsLowerable (tree_of right.now) }
    ensures kept { IsGrown arena.old arena.new }
    ensures stands { IfOk result (λ ns. AllStandFor arena.new (ns.0.0 ∷ ns.1.0 ∷ []) (left.now ∷ right.now ∷ [])) }
    ensures err { OnErr result (result ≡ Err PlanError.OutOfMemory) }
{
    let left = lower_expr(alloc, arena, left)?;
    let right = lower_expr(alloc, arena, right)?;
    Ok((left, right))
}

#[cycle(lower)]
fn lower_three(
    alloc: Global,
    arena: &mut Arena,
    first: &Expr,
    second: &Expr,
    third: &Expr,
) -> Result<(Node, Node, Node), PlanError>
    requires first { IsLowerable (tree_of first.now) }
    requires second { IsLowerable (tree_of second.now) }
    requires third { IsLowerable (tree_of third.now) }
    ensures kept { IsGrown arena.old arena.new }
    ensures stands { IfOk result (λ ns. AllStandFor arena.new (ns.0.0 ∷ ns.1.0 ∷ ns.2.0 ∷ []) (first.now
        ∷ second.now ∷ third.now ∷ [])) }
    ensures err { OnErr result (result ≡ Err PlanError.OutOfMemory) }
{
    let first = lower_expr(alloc, arena, first)?;
    let second = lower_expr(alloc, arena, second)?;
    let third = lower_expr(alloc, arena, third)?;
    Ok((first, second, third))
}

#[cycle(lower)]
fn lower_exprs(alloc: Global, arena: &mut Arena, exprs: &ExprList) -> Result<ExprIRList, PlanError>
    requires { AreLowerable (trees (map tree_of exprs.now.entries)) }
    ensures kept { IsGrown arena.old arena.new }
    ensures stands { IfOk result (λ ns. AllStandFor arena.new (expr_places ns.entries) exprs.now.entries) }
    ensures err { OnErr result (result ≡ Err PlanError.OutOfMemory) }
{
    let mut places = List::new(alloc);
    for expr in exprs.as_slice() {
        let place = lower_expr(alloc, arena, expr)?;
        places.try_push(ExprIR(place))?;
    }
    Ok(places)
}

#[cycle(lower)]
fn lower_expr(alloc: Global, arena: &mut Arena, expr: &Expr) -> Result<Node, PlanError>
    requires { IsLowerable (tree_of expr.now) }
    ensures kept { IsGrown arena.old arena.new }
    ensures stands { IfOk result (λ n. StandsFor arena.new n.0 expr.now) }
    ensures err { OnErr result (result ≡ Err PlanError.OutOfMemory) }
{
    match expr {
        Expr::Alias(input, name) => {
            let name = name.try_clone(alloc)?;
            let input = lower_expr(alloc, arena, input.get())?;
            arena.add(AExpr::Alias(input, name))
        }
        Expr::Column(name) => {
            let name = name.try_clone(alloc)?;
            arena.add(AExpr::Column(name))
        }
        Expr::Literal(value) => {
            let value = value.try_clone(alloc)?;
            arena.add(AExpr::Literal(value))
        }
        Expr::BinaryExpr { left, op, right } => {
            let (left, right) = lower_two(alloc, arena, left.get(), right.get())?;
            let op = *op;
            arena.add(AExpr::BinaryExpr { left, op, right })
        }
        Expr::Cast {
            expr,
            dtype,
            options,
        } => {
            let dtype = dtype.try_clone(alloc)?;
            let options = *options;
            let expr = lower_expr(alloc, arena, expr.get())?;
            arena.add(AExpr::Cast {
                expr,
                dtype,
                options,
            })
        }
        Expr::Gather {
            expr,
            idx,
            returns_scalar,
        } => {
            let returns_scalar = *returns_scalar;
            let (expr, idx) = lower_two(alloc, arena, expr.get(), idx.get())?;
            arena.add(AExpr::Gather {
                expr,
                idx,
                returns_scalar,
            })
        }
        Expr::Slice {
            input,
            offset,
            length,
        } => {
            let (input, offset, length) = lower_three(
                alloc,
                arena,
                input.get(),
                offset.get(),
                length.get(),
            )?;
            arena.add(AExpr::Slice {
                input,
                offset,
                length,
            })
        }
        Expr::Filter { input, by } => {
            let (input, by) = lower_two(alloc, arena, input.get(), by.get())?;
            arena.add(AExpr::Filter { input, by })
        }
        Expr::Ternary {
            predicate,
            truthy,
            falsy,
        } => {
            let (predicate, truthy, falsy) = lower_three(
                alloc,
                arena,
                predicate.get(),
                truthy.get(),
                falsy.get(),
            )?;
            arena.add(AExpr::Ternary {
                predicate,
                truthy,
                falsy,
            })
        }
        Expr::Agg(agg) => lower_agg(alloc, arena, agg),
        Expr::Function {
            input,
            function,
            options,
        } => {
            let function = function.try_clone(alloc)?;
            let options = *options;
            let input = lower_exprs(alloc, arena, input)?;
            arena.add(AExpr::Function {
                input,
                function,
                options,
            })
        }
        Expr::AnonymousFunction {
            input,
            kernel,
            options,
        } => {
            let kernel = *kernel;
            let options = *options;
            let input = lower_exprs(alloc, arena, input)?;
            arena.add(AExpr::AnonymousFunction {
                input,
                kernel,
                options,
            })
        }
        Expr::Len => arena.add(AExpr::Len),
        Expr::Columns(_)
        | Expr::DtypeColumn(_)
        | Expr::IndexColumn(_)
        | Expr::Explode(_)
        | Expr::Exclude(_, _)
        | Expr::Nth(_)
        | Expr::Wildcard => unreachable!(),
    }
}

#[cycle(lower)]
fn lower_agg(alloc: Global, arena: &mut Arena, agg: &AggExpr) -> Result<Node, PlanError>
    requires { IsLowerable (tree_of (Expr.Agg agg.now)) }
    ensures kept { IsGrown arena.old arena.new }
    ensures stands { IfOk result (λ n. StandsFor arena.new n.0 (Expr.Agg agg.now)) }
    ensures err { OnErr result (result ≡ Err PlanError.OutOfMemory) }
{
    match agg {
        AggExpr::Min(input) => {
            let input = lower_expr(alloc, arena, input.get())?;
            arena.add(AExpr::Agg(IRAggExpr::Min(input)))
        }
        AggExpr::Max(input) => {
            let input = lower_expr(alloc, arena, input.get())?;
            arena.add(AExpr::Agg(IRAggExpr::Max(input)))
        }
        AggExpr::First(input) => {
            let input = lower_expr(alloc, arena, input.get())?;
            arena.add(AExpr::Agg(IRAggExpr::First(input)))
        }
        AggExpr::Last(input) => {
            let input = lower_expr(alloc, arena, input.get())?;
            arena.add(AExpr::Agg(IRAggExpr::Last(input)))
        }
        AggExpr::Sum(input) => {
            let input = lower_expr(alloc, arena, input.get())?;
            arena.add(AExpr::Agg(IRAggExpr::Sum(input)))
        }
        AggExpr::Count(input, include_nulls) => {
            let include_nulls = *include_nulls;
            let input = lower_expr(alloc, arena, input.get())?;
            arena.add(AExpr::Agg(IRAggExpr::Count(input, include_nulls)))
        }
        AggExpr::Median(_)
        | AggExpr::NUnique(_)
        | AggExpr::Mean(_)
        | AggExpr::Implode(_)
        | AggExpr::Quantile { .. }
        | AggExpr::AggGroups(_)
        | AggExpr::Std(_, _)
        | AggExpr::Var(_, _) => unreachable!(),
    }
}

/// A place for the expression. What earlier places hold stays, also on a refusal.
pub fn lower(alloc: Global, arena: &mut Arena, expr: &Expr) -> Result<Node, PlanError>
    requires { IsLowerable (tree_of expr.now) }
    ensures kept { IsGrown arena.old arena.new }
    ensures denotes { IfOk result (λ n. Denotes arena.new n.0 (tree_of expr.now)) }
    ensures options { IfOk result (λ n. KeepsOptions arena.new n.0 (options_of expr.now)) }
    ensures err { OnErr result (result ≡ Err PlanError.OutOfMemory) }
{
    lower_expr(alloc, arena, expr)
}
