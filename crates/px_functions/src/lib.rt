//! The functions of expressions: their texts, equality, hashing and copies.
#![tactic(auto)]

mod duplicate;
mod evaluated;
mod function;
mod small;
mod text;

pub use evaluated::{EvaluatedBoolean, EvaluatedFunction};
pub use function::{BooleanFunction, FunctionExpr, is_same_function};
pub use px_types::{BitwiseFunction, ClosedInterval, FusedOperator};
pub use small::{
    BoolList, DimensionList, FillNullLimit, FillNullStrategy, InterpolationMethod, IsSorted,
    NullBehavior, PowFunction, RankMethod, RankOptions, ReshapeDimension, SearchSortedSide,
};
