//! The texts of functions.
ghost use Rattle.std.specs.Prelude.{◌≡◌};
ghost use Rattle.px_functions.specs.Texts.{boolean_text, clip_text, own_text, prefix};

use crate::function::{BooleanFunction, FunctionExpr};
use std::fmt;

impl BooleanFunction {
    #[tactic(auto, unfolding(crate::specs::Texts::boolean_text))]
    fn text(self) -> &'static str
        ensures { result.now ≡ boolean_text self }
    {
        match self {
            BooleanFunction::Any { .. } => "any",
            BooleanFunction::All { .. } => "all",
            BooleanFunction::IsNull => "is_null",
            BooleanFunction::IsNotNull => "is_not_null",
            BooleanFunction::IsFinite => "is_finite",
            BooleanFunction::IsInfinite => "is_infinite",
            BooleanFunction::IsNan => "is_nan",
            BooleanFunction::IsNotNan => "is_not_nan",
            BooleanFunction::IsFirstDistinct => "is_first_distinct",
            BooleanFunction::IsLastDistinct => "is_last_distinct",
            BooleanFunction::IsUnique => "is_unique",
            BooleanFunction::IsDuplicated => "is_duplicated",
            BooleanFunction::IsBetween { .. } => "is_between",
            BooleanFunction::IsIn => "is_in",
            BooleanFunction::AllHorizontal => "all_horizontal",
            BooleanFunction::AnyHorizontal => "any_horizontal",
            BooleanFunction::Not => "not",
        }
    }
}

fn clip_text(has_min: bool, has_max: bool) -> &'static str
    ensures { result.now ≡ clip_text has_min has_max }
{
    match (has_min, has_max) {
        (true, false) => "clip_min",
        (false, true) => "clip_max",
        _ => "clip",
    }
}

impl FunctionExpr {
    #[tactic(auto, unfolding(crate::specs::Texts::own_text))]
    fn text(&self) -> &'static str
        ensures { result.now ≡ own_text self.now }
    {
        match self {
            FunctionExpr::Boolean(function) => function.text(),
            FunctionExpr::Bitwise(function) => function.text(),
            FunctionExpr::Negate => "negate",
            FunctionExpr::Abs => "abs",
            FunctionExpr::Sign => "sign",
            FunctionExpr::NullCount => "null_count",
            FunctionExpr::DropNulls => "drop_nulls",
            FunctionExpr::Reverse => "reverse",
            FunctionExpr::FillNull => "fill_null",
            FunctionExpr::Coalesce => "coalesce",
            FunctionExpr::Clip { has_min, has_max } => clip_text(*has_min, *has_max),
            FunctionExpr::Fused(operator) => operator.text(),
            FunctionExpr::MaxHorizontal => "max_horizontal",
            FunctionExpr::MinHorizontal => "min_horizontal",
            FunctionExpr::SumHorizontal { .. } => "sum_horizontal",
            FunctionExpr::MeanHorizontal { .. } => "mean_horizontal",
            FunctionExpr::Append { .. } => "append",
            FunctionExpr::ArgMin => "arg_min",
            FunctionExpr::ArgMax => "arg_max",
            FunctionExpr::Product => "product",
            FunctionExpr::Hash(_, _, _, _) => "hash",
            FunctionExpr::ArgWhere => "arg_where",
            FunctionExpr::IndexOf => "index_of",
            FunctionExpr::SearchSorted(_) => "search_sorted",
            FunctionExpr::Pow(_) => "pow",
            FunctionExpr::ShiftAndFill => "shift_and_fill",
            FunctionExpr::Shift => "shift",
            FunctionExpr::DropNans => "drop_nans",
            FunctionExpr::Mode => "mode",
            FunctionExpr::Skew(_) => "skew",
            FunctionExpr::Kurtosis(_, _) => "kurtosis",
            FunctionExpr::Reshape(_) => "reshape",
            FunctionExpr::RepeatBy => "repeat_by",
            FunctionExpr::ArgUnique => "arg_unique",
            FunctionExpr::Rank { .. } => "rank",
            FunctionExpr::Repeat => "repeat",
            FunctionExpr::AsStruct => "as_struct",
            FunctionExpr::TopK { descending } => if *descending { "bottom_k" } else { "top_k" },
            FunctionExpr::TopKBy { .. } => "top_k_by",
            FunctionExpr::CumCount { .. } => "cum_count",
            FunctionExpr::CumSum { .. } => "cum_sum",
            FunctionExpr::CumProd { .. } => "cum_prod",
            FunctionExpr::CumMin { .. } => "cum_min",
            FunctionExpr::CumMax { .. } => "cum_max",
            FunctionExpr::ValueCounts { .. } => "value_counts",
            FunctionExpr::UniqueCounts => "unique_counts",
            FunctionExpr::ApproxNUnique => "approx_n_unique",
            FunctionExpr::ShrinkType => "shrink_dtype",
            FunctionExpr::Diff(_, _) => "diff",
            FunctionExpr::PctChange => "pct_change",
            FunctionExpr::Interpolate(_) => "interpolate",
            FunctionExpr::InterpolateBy => "interpolate_by",
            FunctionExpr::Unique(stable) => if *stable { "unique_stable" } else { "unique" },
            FunctionExpr::Round { .. } => "round",
            FunctionExpr::RoundSF { .. } => "round_sig_figs",
            FunctionExpr::Floor => "floor",
            FunctionExpr::Ceil => "ceil",
            FunctionExpr::UpperBound => "upper_bound",
            FunctionExpr::LowerBound => "lower_bound",
            FunctionExpr::ConcatExpr(_) => "concat_expr",
            FunctionExpr::PeakMin => "peak_min",
            FunctionExpr::PeakMax => "peak_max",
            FunctionExpr::RLE => "rle",
            FunctionExpr::RLEID => "rle_id",
            FunctionExpr::ToPhysical => "to_physical",
            FunctionExpr::SetSortedFlag(_) => "set_sorted",
            FunctionExpr::BackwardFill { .. } => "backward_fill",
            FunctionExpr::ForwardFill { .. } => "forward_fill",
            FunctionExpr::Replace => "replace",
            FunctionExpr::ReplaceStrict { .. } => "replace_strict",
            FunctionExpr::GatherEvery { .. } => "gather_every",
            FunctionExpr::Reinterpret(_) => "reinterpret",
            FunctionExpr::ExtendConstant => "extend_constant",
            FunctionExpr::FillNullWithStrategy(_) => "fill_null_with_strategy",
        }
    }

    fn prefix(&self) -> &'static str
        ensures { result.now ≡ prefix self.now }
    {
        match self {
            FunctionExpr::Bitwise(_) => "bitwise_",
            _ => "",
        }
    }
}

impl fmt::Display for BooleanFunction {
    ghost use Rattle.std.specs.Prelude.{Some};
    ghost use Rattle.px_functions.specs.Texts.{boolean_text};

    ghost output = { λ function. Some (boolean_text function) };

    fn fmt<W: fmt::Write>(&self, f: &mut fmt::Formatter<W>) -> fmt::Result {
        f.write_str(self.text())
    }
}

impl fmt::Display for FunctionExpr {
    ghost use Rattle.std.specs.Prelude.{Some};
    ghost use Rattle.px_functions.specs.Texts.{function_text};

    ghost output = { λ function. Some (function_text function) };

    fn fmt<W: fmt::Write>(&self, f: &mut fmt::Formatter<W>) -> fmt::Result {
        write!(f, "{}{}", self.prefix(), self.text())
    }
}
