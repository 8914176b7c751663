//! The tree of an expression.
ghost use Rattle.px_base.specs.Answer.{GivesOrMemory};

use crate::literal::LiteralValue;
use px_functions::FunctionExpr;
use px_types::{
    Boxed, CastOptions, DataType, FunctionOptions, List, Operator, PlanError, QuantileMethod,
    SmallStr, TryClone, TypeList,
};
use std::alloc::Global;

/// Names, in order.
pub type NameList = List<SmallStr>;

/// Numbers of columns, in order; a negative one counts from the end.
pub type IndexList = List<i64>;

/// What a selection leaves out, in order.
pub type ExcludedList = List<Excluded>;

/// A column that a selection leaves out, by its name or by its type.
#[derive(Drop)]
pub enum Excluded {
    Name(SmallStr),
    Dtype(DataType),
}

impl TryClone for Excluded {
    fn try_clone_in(&self, alloc: Global) -> Result<Excluded, PlanError> {
        match self {
            Excluded::Name(name) => Ok(Excluded::Name(name.try_clone(alloc)?)),
            Excluded::Dtype(dtype) => Ok(Excluded::Dtype(dtype.try_clone(alloc)?)),
        }
    }
}

/// An expression over the columns of a frame.
#[cycle(expr)]
#[derive(Drop)]
pub enum Expr {
    /// The input under another name.
    Alias(Boxed<Expr>, SmallStr),
    /// The column of this name.
    Column(SmallStr),
    /// The columns of these names.
    Columns(NameList),
    /// The columns of these types.
    DtypeColumn(TypeList),
    /// The columns at these places.
    IndexColumn(IndexList),
    /// A value of its own.
    Literal(LiteralValue),
    /// An operator over two operands.
    BinaryExpr {
        left: Boxed<Expr>,
        op: Operator,
        right: Boxed<Expr>,
    },
    /// The input in another type.
    Cast {
        expr: Boxed<Expr>,
        dtype: DataType,
        options: CastOptions,
    },
    /// The rows at some indices.
    Gather {
        expr: Boxed<Expr>,
        idx: Boxed<Expr>,
        returns_scalar: bool,
    },
    /// So many rows from an offset on.
    Slice {
        input: Boxed<Expr>,
        offset: Boxed<Expr>,
        length: Boxed<Expr>,
    },
    /// The rows where a mask is true.
    Filter {
        input: Boxed<Expr>,
        by: Boxed<Expr>,
    },
    /// Row by row the one or the other, by a mask.
    Ternary {
        predicate: Boxed<Expr>,
        truthy: Boxed<Expr>,
        falsy: Boxed<Expr>,
    },
    /// One row out of all.
    Agg(AggExpr),
    /// A function over inputs.
    Function {
        input: ExprList,
        function: FunctionExpr,
        options: FunctionOptions,
    },
    /// A kernel of the caller's, by its number, over inputs.
    AnonymousFunction {
        input: ExprList,
        kernel: u32,
        options: FunctionOptions,
    },
    /// The rows of lists, one after the other.
    Explode(Boxed<Expr>),
    /// A selection without some columns.
    Exclude(Boxed<Expr>, ExcludedList),
    /// The number of rows.
    Len,
    /// The column at this place.
    Nth(i64),
    /// All columns.
    Wildcard,
}

/// An aggregate: one row out of all rows of an input.
#[cycle(expr)]
#[derive(Drop)]
pub enum AggExpr {
    Min(Boxed<Expr>),
    Max(Boxed<Expr>),
    Median(Boxed<Expr>),
    NUnique(Boxed<Expr>),
    First(Boxed<Expr>),
    Last(Boxed<Expr>),
    Mean(Boxed<Expr>),
    Implode(Boxed<Expr>),
    /// The number of rows, or of those that are not null.
    Count(Boxed<Expr>, bool),
    Quantile {
        expr: Boxed<Expr>,
        quantile: Boxed<Expr>,
        method: QuantileMethod,
    },
    Sum(Boxed<Expr>),
    AggGroups(Boxed<Expr>),
    Std(Boxed<Expr>, u8),
    Var(Boxed<Expr>, u8),
}

/// Expressions, in order.
pub type ExprList = List<Expr>;
