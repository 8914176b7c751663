//! The names of functions, and of what casts do.
ghost use Rattle.std.specs.Prelude.{◌≡◌};
ghost use Rattle.px_forms.specs.Names.{function_text, function_named, cast_name, cast_named};

use px_functions::{EvaluatedBoolean, EvaluatedFunction};
use px_types::{CastOptions, FusedOperator};

#[tactic(auto, unfolding(crate::specs::Names::function_text))]
pub(crate) fn function_text(function: EvaluatedFunction) -> &'static str
    ensures { result.now ≡ function_text function }
{
    match function {
        EvaluatedFunction::Boolean(EvaluatedBoolean::IsNull) => "is_null",
        EvaluatedFunction::Boolean(EvaluatedBoolean::IsNotNull) => "is_not_null",
        EvaluatedFunction::Boolean(EvaluatedBoolean::Not) => "not",
        EvaluatedFunction::Negate => "negate",
        EvaluatedFunction::Fused(FusedOperator::MultiplyAdd) => "fma",
        EvaluatedFunction::Fused(FusedOperator::SubMultiply) => "fsm",
        EvaluatedFunction::Fused(FusedOperator::MultiplySub) => "fms",
    }
}

#[tactic(auto, unfolding(crate::specs::Names::function_named))]
pub(crate) fn function_named(text: &str) -> Option<EvaluatedFunction>
    ensures { result ≡ function_named text.now }
{
    if text == "is_null" {
        Some(EvaluatedFunction::Boolean(EvaluatedBoolean::IsNull))
    } else if text == "is_not_null" {
        Some(EvaluatedFunction::Boolean(EvaluatedBoolean::IsNotNull))
    } else if text == "not" {
        Some(EvaluatedFunction::Boolean(EvaluatedBoolean::Not))
    } else if text == "negate" {
        Some(EvaluatedFunction::Negate)
    } else if text == "fma" {
        Some(EvaluatedFunction::Fused(FusedOperator::MultiplyAdd))
    } else if text == "fsm" {
        Some(EvaluatedFunction::Fused(FusedOperator::SubMultiply))
    } else if text == "fms" {
        Some(EvaluatedFunction::Fused(FusedOperator::MultiplySub))
    } else {
        None
    }
}

#[tactic(auto, unfolding(crate::specs::Names::cast_name))]
pub(crate) fn cast_name(options: CastOptions) -> &'static str
    ensures { result.now ≡ cast_name options }
{
    match options {
        CastOptions::Strict => "strict",
        CastOptions::NonStrict => "nonstrict",
        CastOptions::Overflowing => "overflowing",
    }
}

#[tactic(auto, unfolding(crate::specs::Names::cast_named))]
pub(crate) fn cast_named(name: &str) -> Option<CastOptions>
    ensures { result ≡ cast_named name.now }
{
    if name == "strict" {
        Some(CastOptions::Strict)
    } else if name == "nonstrict" {
        Some(CastOptions::NonStrict)
    } else if name == "overflowing" {
        Some(CastOptions::Overflowing)
    } else {
        None
    }
}
