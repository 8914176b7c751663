//! Functions over bits, and fused operators.
ghost use Rattle.std.specs.Prelude.{◌≡◌};
ghost use Rattle.px_types.specs.FunctionTexts.{bitwise_text, fused_text};

use std::fmt;

/// A function over the bits of values: a count for each row, or a reduction of all rows.
#[derive(Clone, Copy, Debug, PartialEq, Eq, Hash)]
pub enum BitwiseFunction {
    CountOnes,
    CountZeros,
    LeadingOnes,
    LeadingZeros,
    TrailingOnes,
    TrailingZeros,
    And,
    Or,
    Xor,
}

/// A product and a sum or a difference in one step: `x + y * z`, `x - y * z` and `x * y - z`. They
/// are Polars' `fma`, `fsm` and `fms`.
#[derive(Clone, Copy, Debug, PartialEq, Eq, Hash)]
pub enum FusedOperator {
    MultiplyAdd,
    SubMultiply,
    MultiplySub,
}

impl BitwiseFunction {
    /// The text that is printed.
    #[tactic(auto, unfolding(crate::specs::FunctionTexts::bitwise_text))]
    pub fn text(self) -> &'static str
        ensures { result.now ≡ bitwise_text self }
    {
        match self {
            BitwiseFunction::CountOnes => "count_ones",
            BitwiseFunction::CountZeros => "count_zeros",
            BitwiseFunction::LeadingOnes => "leading_ones",
            BitwiseFunction::LeadingZeros => "leading_zeros",
            BitwiseFunction::TrailingOnes => "trailing_ones",
            BitwiseFunction::TrailingZeros => "trailing_zeros",
            BitwiseFunction::And => "and",
            BitwiseFunction::Or => "or",
            BitwiseFunction::Xor => "xor",
        }
    }
}

impl FusedOperator {
    /// The text that is printed, which is Polars'.
    #[tactic(auto, unfolding(crate::specs::FunctionTexts::fused_text))]
    pub fn text(self) -> &'static str
        ensures { result.now ≡ fused_text self }
    {
        match self {
            FusedOperator::MultiplyAdd => "fma",
            FusedOperator::SubMultiply => "fsm",
            FusedOperator::MultiplySub => "fms",
        }
    }
}

impl fmt::Display for BitwiseFunction {
    ghost use Rattle.std.specs.Prelude.{Some};
    ghost use Rattle.px_types.specs.FunctionTexts.{bitwise_text};

    ghost output = { λ function. Some (bitwise_text function) };

    fn fmt<W: fmt::Write>(&self, f: &mut fmt::Formatter<W>) -> fmt::Result {
        f.write_str(self.text())
    }
}

impl fmt::Display for FusedOperator {
    ghost use Rattle.std.specs.Prelude.{Some};
    ghost use Rattle.px_types.specs.FunctionTexts.{fused_text};

    ghost output = { λ operator. Some (fused_text operator) };

    fn fmt<W: fmt::Write>(&self, f: &mut fmt::Formatter<W>) -> fmt::Result {
        f.write_str(self.text())
    }
}
