//! The functions of expressions.
ghost use Rattle.std.specs.Prelude.{◌≡◌, IsTrue, ◌↔◌};

use crate::small::{
    BoolList, DimensionList, FillNullStrategy, InterpolationMethod, IsSorted, NullBehavior,
    PowFunction, RankOptions, SearchSortedSide,
};
use px_base::SmallStr;
use px_types::{BitwiseFunction, ClosedInterval, DataType, FusedOperator};

/// A function that answers Booleans, or that takes them apart.
#[derive(Clone, Copy, Debug, PartialEq, Eq, Hash)]
pub enum BooleanFunction {
    Any { ignore_nulls: bool },
    All { ignore_nulls: bool },
    IsNull,
    IsNotNull,
    IsFinite,
    IsInfinite,
    IsNan,
    IsNotNan,
    IsFirstDistinct,
    IsLastDistinct,
    IsUnique,
    IsDuplicated,
    IsBetween { closed: ClosedInterval },
    IsIn,
    AllHorizontal,
    AnyHorizontal,
    /// The negation of a Boolean, or the complement of an integer.
    Not,
}

/// A function over the inputs of an expression.
#[derive(Drop, PartialEq, Eq)]
#[derive_where(Hash)]
pub enum FunctionExpr {
    Boolean(BooleanFunction),
    Bitwise(BitwiseFunction),
    Negate,
    Abs,
    Sign,
    NullCount,
    DropNulls,
    Reverse,
    FillNull,
    Coalesce,
    Clip {
        has_min: bool,
        has_max: bool,
    },
    Fused(FusedOperator),
    MaxHorizontal,
    MinHorizontal,
    SumHorizontal {
        #[derive_where(skip(Hash))]
        ignore_nulls: bool,
    },
    MeanHorizontal {
        #[derive_where(skip(Hash))]
        ignore_nulls: bool,
    },
    Append {
        upcast: bool,
    },
    ArgMin,
    ArgMax,
    Product,
    Hash(u64, u64, u64, u64),
    ArgWhere,
    IndexOf,
    SearchSorted(SearchSortedSide),
    Pow(PowFunction),
    ShiftAndFill,
    Shift,
    DropNans,
    Mode,
    Skew(bool),
    Kurtosis(bool, bool),
    Reshape(DimensionList),
    RepeatBy,
    ArgUnique,
    Rank {
        options: RankOptions,
        seed: Option<u64>,
    },
    Repeat,
    AsStruct,
    TopK {
        descending: bool,
    },
    TopKBy {
        descending: BoolList,
    },
    CumCount {
        reverse: bool,
    },
    CumSum {
        reverse: bool,
    },
    CumProd {
        reverse: bool,
    },
    CumMin {
        reverse: bool,
    },
    CumMax {
        reverse: bool,
    },
    ValueCounts {
        sort: bool,
        parallel: bool,
        name: SmallStr,
        normalize: bool,
    },
    UniqueCounts,
    ApproxNUnique,
    ShrinkType,
    Diff(#[derive_where(skip(Hash))] i64, NullBehavior),
    PctChange,
    Interpolate(InterpolationMethod),
    InterpolateBy,
    Unique(bool),
    Round {
        decimals: u32,
    },
    RoundSF {
        digits: i32,
    },
    Floor,
    Ceil,
    UpperBound,
    LowerBound,
    ConcatExpr(bool),
    PeakMin,
    PeakMax,
    RLE,
    RLEID,
    ToPhysical,
    SetSortedFlag(IsSorted),
    BackwardFill {
        limit: Option<u32>,
    },
    ForwardFill {
        limit: Option<u32>,
    },
    Replace,
    ReplaceStrict {
        return_dtype: Option<DataType>,
    },
    GatherEvery {
        n: usize,
        offset: usize,
    },
    Reinterpret(bool),
    ExtendConstant,
    FillNullWithStrategy(FillNullStrategy),
}

/// Whether two functions are equal, which is what `==` answers: their variants are, and all their
/// fields.
pub fn is_same_function(a: &FunctionExpr, b: &FunctionExpr) -> bool
    ensures { IsTrue result ↔ (a.now ≡ b.now) }
{
    *a == *b
}

impl From<BooleanFunction> for FunctionExpr {
    ghost use Rattle.std.specs.Prelude.{◌≡◌};
    ghost use Rattle.px_functions.specs.declared.function.FunctionExpr.TheVariants.{Boolean};

    ghost from_gives = { λ function answer. answer ≡ Boolean function };

    fn from(function: BooleanFunction) -> FunctionExpr {
        FunctionExpr::Boolean(function)
    }
}
