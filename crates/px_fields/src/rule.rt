//! The rules for the types of functions.
ghost use Rattle.std.specs.Prelude.{◌≡◌};
ghost use Rattle.px_fields.specs.FunctionTypes.{boolean_rule, bitwise_rule, rank_rule, interpolation_rule, rule};

use px_functions::{
    BitwiseFunction, BooleanFunction, FunctionExpr, InterpolationMethod, RankMethod,
};

/// How the type of a function follows from the types of its inputs.
#[derive(Clone, Copy)]
pub enum Rule {
    First,
    Boolean,
    UInt32,
    UInt64,
    Int64,
    Float64,
    Supertype,
    SummedSupertype,
    FloatSupertype,
    BooleanOrInteger,
    Bits,
    BitReduction,
    Power,
    Product,
    Smallest,
    Difference,
    Fraction,
    NumericAsFloat,
    RunningSum,
    RunningProduct,
    ListOfFirst,
    RunLengths,
    AllFields,
    Physical,
    Own,
}

pub(crate) fn boolean_rule(function: BooleanFunction) -> Rule
    ensures { result ≡ boolean_rule function }
{
    match function {
        BooleanFunction::Not => Rule::BooleanOrInteger,
        _ => Rule::Boolean,
    }
}

pub(crate) fn bitwise_rule(function: BitwiseFunction) -> Rule
    ensures { result ≡ bitwise_rule function }
{
    match function {
        BitwiseFunction::And | BitwiseFunction::Or | BitwiseFunction::Xor => Rule::BitReduction,
        _ => Rule::Bits,
    }
}

fn rank_rule(method: RankMethod) -> Rule
    ensures { result ≡ rank_rule method }
{
    match method {
        RankMethod::Average => Rule::Float64,
        _ => Rule::UInt32,
    }
}

fn interpolation_rule(method: InterpolationMethod) -> Rule
    ensures { result ≡ interpolation_rule method }
{
    match method {
        InterpolationMethod::Linear => Rule::NumericAsFloat,
        InterpolationMethod::Nearest => Rule::First,
    }
}

// The rule for the type of the function.
#[tactic(auto, unfolding(crate::specs::FunctionTypes::rule))]
pub(crate) fn rule_of(function: &FunctionExpr) -> Rule
    ensures { result ≡ rule function.now }
{
    match function {
        FunctionExpr::Boolean(function) => boolean_rule(*function),
        FunctionExpr::Bitwise(function) => bitwise_rule(*function),
        FunctionExpr::Append { upcast } => if *upcast {
            Rule::Supertype
        } else {
            Rule::First
        },
        FunctionExpr::Rank { options, .. } => rank_rule(options.method),
        FunctionExpr::Reinterpret(signed) => if *signed { Rule::Int64 } else { Rule::UInt64 },
        FunctionExpr::Interpolate(method) => interpolation_rule(*method),
        FunctionExpr::Negate
        | FunctionExpr::Abs
        | FunctionExpr::DropNulls
        | FunctionExpr::Reverse
        | FunctionExpr::Clip { .. }
        | FunctionExpr::ShiftAndFill
        | FunctionExpr::Shift
        | FunctionExpr::DropNans
        | FunctionExpr::Mode
        | FunctionExpr::Repeat
        | FunctionExpr::TopK { .. }
        | FunctionExpr::TopKBy { .. }
        | FunctionExpr::CumMin { .. }
        | FunctionExpr::CumMax { .. }
        | FunctionExpr::Unique(_)
        | FunctionExpr::Round { .. }
        | FunctionExpr::RoundSF { .. }
        | FunctionExpr::Floor
        | FunctionExpr::Ceil
        | FunctionExpr::UpperBound
        | FunctionExpr::LowerBound
        | FunctionExpr::PeakMin
        | FunctionExpr::PeakMax
        | FunctionExpr::SetSortedFlag(_)
        | FunctionExpr::BackwardFill { .. }
        | FunctionExpr::ForwardFill { .. }
        | FunctionExpr::Replace
        | FunctionExpr::GatherEvery { .. }
        | FunctionExpr::ExtendConstant
        | FunctionExpr::FillNullWithStrategy(_) => Rule::First,
        FunctionExpr::Sign => Rule::Int64,
        FunctionExpr::NullCount
        | FunctionExpr::ArgMin
        | FunctionExpr::ArgMax
        | FunctionExpr::ArgWhere
        | FunctionExpr::IndexOf
        | FunctionExpr::SearchSorted(_)
        | FunctionExpr::ArgUnique
        | FunctionExpr::CumCount { .. }
        | FunctionExpr::UniqueCounts
        | FunctionExpr::ApproxNUnique
        | FunctionExpr::RLEID => Rule::UInt32,
        FunctionExpr::FillNull
        | FunctionExpr::Coalesce
        | FunctionExpr::Fused(_)
        | FunctionExpr::MaxHorizontal
        | FunctionExpr::MinHorizontal
        | FunctionExpr::ConcatExpr(_) => Rule::Supertype,
        FunctionExpr::SumHorizontal { .. } => Rule::SummedSupertype,
        FunctionExpr::MeanHorizontal { .. } => Rule::FloatSupertype,
        FunctionExpr::Product => Rule::Product,
        FunctionExpr::Hash(_, _, _, _) => Rule::UInt64,
        FunctionExpr::Pow(_) => Rule::Power,
        FunctionExpr::Skew(_) | FunctionExpr::Kurtosis(_, _) => Rule::Float64,
        FunctionExpr::Reshape(_)
        | FunctionExpr::ValueCounts { .. }
        | FunctionExpr::ReplaceStrict { .. } => Rule::Own,
        FunctionExpr::RepeatBy => Rule::ListOfFirst,
        FunctionExpr::AsStruct => Rule::AllFields,
        FunctionExpr::CumSum { .. } => Rule::RunningSum,
        FunctionExpr::CumProd { .. } => Rule::RunningProduct,
        FunctionExpr::ShrinkType => Rule::Smallest,
        FunctionExpr::Diff(_, _) => Rule::Difference,
        FunctionExpr::PctChange => Rule::Fraction,
        FunctionExpr::InterpolateBy => Rule::NumericAsFloat,
        FunctionExpr::RLE => Rule::RunLengths,
        FunctionExpr::ToPhysical => Rule::Physical,
    }
}
