//! Copies of functions, which take memory.
ghost use Rattle.px_base.specs.Answer.{GivesOrMemory};

use crate::function::FunctionExpr;
use crate::small::ReshapeDimension;
use px_base::{PlanError, TryClone};
use px_types::DataType;
use std::alloc::Global;

impl TryClone for ReshapeDimension {
    fn try_clone_in(&self, _alloc: Global) -> Result<ReshapeDimension, PlanError> {
        Ok(*self)
    }
}

fn clone_dtype(alloc: Global, dtype: &Option<DataType>) -> Result<Option<DataType>, PlanError>
    ensures { GivesOrMemory result dtype.now }
{
    match dtype {
        None => Ok(None),
        Some(dtype) => Ok(Some(dtype.try_clone(alloc)?)),
    }
}

impl FunctionExpr {
    /// An equal function. The only error is out of memory.
    pub fn try_clone(&self, alloc: Global) -> Result<FunctionExpr, PlanError>
        ensures { GivesOrMemory result self.now }
    {
        match self {
            FunctionExpr::Boolean(a) => Ok(FunctionExpr::Boolean(*a)),
            FunctionExpr::Bitwise(a) => Ok(FunctionExpr::Bitwise(*a)),
            FunctionExpr::Negate => Ok(FunctionExpr::Negate),
            FunctionExpr::Abs => Ok(FunctionExpr::Abs),
            FunctionExpr::Sign => Ok(FunctionExpr::Sign),
            FunctionExpr::NullCount => Ok(FunctionExpr::NullCount),
            FunctionExpr::DropNulls => Ok(FunctionExpr::DropNulls),
            FunctionExpr::Reverse => Ok(FunctionExpr::Reverse),
            FunctionExpr::FillNull => Ok(FunctionExpr::FillNull),
            FunctionExpr::Coalesce => Ok(FunctionExpr::Coalesce),
            FunctionExpr::Clip { has_min, has_max } => Ok(FunctionExpr::Clip {
                has_min: *has_min,
                has_max: *has_max,
            }),
            FunctionExpr::Fused(a) => Ok(FunctionExpr::Fused(*a)),
            FunctionExpr::MaxHorizontal => Ok(FunctionExpr::MaxHorizontal),
            FunctionExpr::MinHorizontal => Ok(FunctionExpr::MinHorizontal),
            FunctionExpr::SumHorizontal { ignore_nulls } => Ok(FunctionExpr::SumHorizontal {
                ignore_nulls: *ignore_nulls,
            }),
            FunctionExpr::MeanHorizontal { ignore_nulls } => Ok(FunctionExpr::MeanHorizontal {
                ignore_nulls: *ignore_nulls,
            }),
            FunctionExpr::Append { upcast } => Ok(FunctionExpr::Append { upcast: *upcast }),
            FunctionExpr::ArgMin => Ok(FunctionExpr::ArgMin),
            FunctionExpr::ArgMax => Ok(FunctionExpr::ArgMax),
            FunctionExpr::Product => Ok(FunctionExpr::Product),
            FunctionExpr::Hash(a, b, c, d) => Ok(FunctionExpr::Hash(*a, *b, *c, *d)),
            FunctionExpr::ArgWhere => Ok(FunctionExpr::ArgWhere),
            FunctionExpr::IndexOf => Ok(FunctionExpr::IndexOf),
            FunctionExpr::SearchSorted(a) => Ok(FunctionExpr::SearchSorted(*a)),
            FunctionExpr::Pow(a) => Ok(FunctionExpr::Pow(*a)),
            FunctionExpr::ShiftAndFill => Ok(FunctionExpr::ShiftAndFill),
            FunctionExpr::Shift => Ok(FunctionExpr::Shift),
            FunctionExpr::DropNans => Ok(FunctionExpr::DropNans),
            FunctionExpr::Mode => Ok(FunctionExpr::Mode),
            FunctionExpr::Skew(a) => Ok(FunctionExpr::Skew(*a)),
            FunctionExpr::Kurtosis(a, b) => Ok(FunctionExpr::Kurtosis(*a, *b)),
            FunctionExpr::Reshape(a) => Ok(FunctionExpr::Reshape(a.try_clone(alloc)?)),
            FunctionExpr::RepeatBy => Ok(FunctionExpr::RepeatBy),
            FunctionExpr::ArgUnique => Ok(FunctionExpr::ArgUnique),
            FunctionExpr::Rank { options, seed } => Ok(FunctionExpr::Rank {
                options: *options,
                seed: *seed,
            }),
            FunctionExpr::Repeat => Ok(FunctionExpr::Repeat),
            FunctionExpr::AsStruct => Ok(FunctionExpr::AsStruct),
            FunctionExpr::TopK { descending } => Ok(FunctionExpr::TopK {
                descending: *descending,
            }),
            FunctionExpr::TopKBy { descending } => Ok(FunctionExpr::TopKBy {
                descending: descending.try_clone(alloc)?,
            }),
            FunctionExpr::CumCount { reverse } => Ok(FunctionExpr::CumCount { reverse: *reverse }),
            FunctionExpr::CumSum { reverse } => Ok(FunctionExpr::CumSum { reverse: *reverse }),
            FunctionExpr::CumProd { reverse } => Ok(FunctionExpr::CumProd { reverse: *reverse }),
            FunctionExpr::CumMin { reverse } => Ok(FunctionExpr::CumMin { reverse: *reverse }),
            FunctionExpr::CumMax { reverse } => Ok(FunctionExpr::CumMax { reverse: *reverse }),
            FunctionExpr::ValueCounts {
                sort,
                parallel,
                name,
                normalize,
            } => Ok(FunctionExpr::ValueCounts {
                sort: *sort,
                parallel: *parallel,
                name: name.try_clone(alloc)?,
                normalize: *normalize,
            }),
            FunctionExpr::UniqueCounts => Ok(FunctionExpr::UniqueCounts),
            FunctionExpr::ApproxNUnique => Ok(FunctionExpr::ApproxNUnique),
            FunctionExpr::ShrinkType => Ok(FunctionExpr::ShrinkType),
            FunctionExpr::Diff(a, b) => Ok(FunctionExpr::Diff(*a, *b)),
            FunctionExpr::PctChange => Ok(FunctionExpr::PctChange),
            FunctionExpr::Interpolate(a) => Ok(FunctionExpr::Interpolate(*a)),
            FunctionExpr::InterpolateBy => Ok(FunctionExpr::InterpolateBy),
            FunctionExpr::Unique(a) => Ok(FunctionExpr::Unique(*a)),
            FunctionExpr::Round { decimals } => Ok(FunctionExpr::Round {
                decimals: *decimals,
            }),
            FunctionExpr::RoundSF { digits } => Ok(FunctionExpr::RoundSF { digits: *digits }),
            FunctionExpr::Floor => Ok(FunctionExpr::Floor),
            FunctionExpr::Ceil => Ok(FunctionExpr::Ceil),
            FunctionExpr::UpperBound => Ok(FunctionExpr::UpperBound),
            FunctionExpr::LowerBound => Ok(FunctionExpr::LowerBound),
            FunctionExpr::ConcatExpr(a) => Ok(FunctionExpr::ConcatExpr(*a)),
            FunctionExpr::PeakMin => Ok(FunctionExpr::PeakMin),
            FunctionExpr::PeakMax => Ok(FunctionExpr::PeakMax),
            FunctionExpr::RLE => Ok(FunctionExpr::RLE),
            FunctionExpr::RLEID => Ok(FunctionExpr::RLEID),
            FunctionExpr::ToPhysical => Ok(FunctionExpr::ToPhysical),
            FunctionExpr::SetSortedFlag(a) => Ok(FunctionExpr::SetSortedFlag(*a)),
            FunctionExpr::BackwardFill { limit } => Ok(FunctionExpr::BackwardFill {
                limit: *limit,
            }),
            FunctionExpr::ForwardFill { limit } => Ok(FunctionExpr::ForwardFill { limit: *limit }),
            FunctionExpr::Replace => Ok(FunctionExpr::Replace),
            FunctionExpr::ReplaceStrict { return_dtype } => Ok(FunctionExpr::ReplaceStrict {
                return_dtype: clone_dtype(alloc, return_dtype)?,
            }),
            FunctionExpr::GatherEvery { n, offset } => Ok(FunctionExpr::GatherEvery {
                n: *n,
                offset: *offset,
            }),
            FunctionExpr::Reinterpret(a) => Ok(FunctionExpr::Reinterpret(*a)),
            FunctionExpr::ExtendConstant => Ok(FunctionExpr::ExtendConstant),
            FunctionExpr::FillNullWithStrategy(a) => Ok(FunctionExpr::FillNullWithStrategy(*a)),
        }
    }
}
