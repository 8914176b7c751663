//! The name of what an expression means.
ghost use Rattle.std.specs.Prelude.{◌≡◌};
ghost use Rattle.px_expr.specs.Tree.{tree_of};
ghost use Rattle.px_meaning.specs.Names.{name, literal_name};

use px_expr::{AggExpr, Expr, LiteralValue};

fn literal_name(value: &LiteralValue) -> &str
    ensures { result.now ≡ literal_name value.now }
{
    match value {
        LiteralValue::Series(column) => column.name().as_str(),
        _ => "literal",
    }
}

/// The name of what an expression means.
pub fn name_of(expr: &Expr) -> &str
    ensures { result.now ≡ name (tree_of expr.now) }
{
    match expr {
        Expr::Alias(_, name) => name.as_str(),
        Expr::Column(name) => name.as_str(),
        Expr::Literal(value) => literal_name(value),
        Expr::Len => "len",
        Expr::BinaryExpr {
            left,
            op: _,
            right: _,
        } => name_of(left.get()),
        Expr::Cast {
            expr,
            dtype: _,
            options: _,
        } => name_of(expr.get()),
        Expr::Gather {
            expr,
            idx: _,
            returns_scalar: _,
        } => name_of(expr.get()),
        Expr::Slice {
            input,
            offset: _,
            length: _,
        } => name_of(input.get()),
        Expr::Filter { input, by: _ } => name_of(input.get()),
        Expr::Ternary {
            predicate: _,
            truthy,
            falsy: _,
        } => name_of(truthy.get()),
        Expr::Agg(
            AggExpr::Min(input)
            | AggExpr::Max(input)
            | AggExpr::Median(input)
            | AggExpr::NUnique(input)
            | AggExpr::First(input)
            | AggExpr::Last(input)
            | AggExpr::Mean(input)
            | AggExpr::Implode(input)
            | AggExpr::Count(input, _)
            | AggExpr::Sum(input)
            | AggExpr::AggGroups(input)
            | AggExpr::Std(input, _)
            | AggExpr::Var(input, _),
        ) => name_of(input.get()),
        Expr::Agg(
            AggExpr::Quantile {
                expr,
                quantile: _,
                method: _,
            },
        ) => name_of(expr.get()),
        Expr::Function {
            input,
            function: _,
            options: _,
        } => match input.as_slice() {
            [first, ..] => name_of(first),
            [] => "",
        },
        Expr::AnonymousFunction {
            input,
            kernel: _,
            options: _,
        } => match input.as_slice() {
            [first, ..] => name_of(first),
            [] => "",
        },
        Expr::Explode(input) => name_of(input.get()),
        Expr::Exclude(input, _) => name_of(input.get()),
        Expr::Columns(_)
        | Expr::DtypeColumn(_)
        | Expr::IndexColumn(_)
        | Expr::Nth(_)
        | Expr::Wildcard => "",
    }
}
