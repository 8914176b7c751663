//! The functions that are evaluated, and those of all functions that are one of them.
ghost use Rattle.std.specs.Prelude.{◌≡◌};
ghost use Rattle.px_functions.specs.Evaluated.{evaluated, evaluated_boolean, boolean_of_evaluated};

use crate::function::{BooleanFunction, FunctionExpr};
use px_types::FusedOperator;

/// A function that answers Booleans, or that takes them apart, and that is evaluated.
#[derive(Clone, Copy, Debug)]
pub enum EvaluatedBoolean {
    IsNull,
    IsNotNull,
    /// The negation of a Boolean, or the complement of an integer.
    Not,
}

/// A function that is evaluated. Every other function is built, typed and printed, and refused where it is
/// to be evaluated.
#[derive(Clone, Copy, Debug)]
pub enum EvaluatedFunction {
    Boolean(EvaluatedBoolean),
    Negate,
    Fused(FusedOperator),
}

impl BooleanFunction {
    /// The same function as one that is evaluated. None where it is not.
    pub fn evaluated(self) -> Option<EvaluatedBoolean>
        ensures { result ≡ evaluated_boolean self }
    {
        match self {
            BooleanFunction::IsNull => Some(EvaluatedBoolean::IsNull),
            BooleanFunction::IsNotNull => Some(EvaluatedBoolean::IsNotNull),
            BooleanFunction::Not => Some(EvaluatedBoolean::Not),
            _ => None,
        }
    }
}

impl FunctionExpr {
    /// The same function as one that is evaluated. None where it is not.
    pub fn evaluated(&self) -> Option<EvaluatedFunction>
        ensures { result ≡ evaluated self.now }
    {
        match self {
            FunctionExpr::Boolean(function) => {
                Some(EvaluatedFunction::Boolean(function.evaluated()?))
            }
            FunctionExpr::Negate => Some(EvaluatedFunction::Negate),
            FunctionExpr::Fused(operator) => Some(EvaluatedFunction::Fused(*operator)),
            _ => None,
        }
    }
}

impl From<EvaluatedBoolean> for BooleanFunction {
    ghost use Rattle.std.specs.Prelude.{◌≡◌};
    ghost use Rattle.px_functions.specs.Evaluated.{boolean_of_evaluated};

    ghost from_gives = { λ function answer. answer ≡ boolean_of_evaluated function };

    fn from(function: EvaluatedBoolean) -> BooleanFunction {
        match function {
            EvaluatedBoolean::IsNull => BooleanFunction::IsNull,
            EvaluatedBoolean::IsNotNull => BooleanFunction::IsNotNull,
            EvaluatedBoolean::Not => BooleanFunction::Not,
        }
    }
}

impl From<EvaluatedFunction> for FunctionExpr {
    ghost use Rattle.std.specs.Prelude.{◌≡◌};
    ghost use Rattle.px_functions.specs.Evaluated.{of_evaluated};

    ghost from_gives = { λ function answer. answer ≡ of_evaluated function };

    fn from(function: EvaluatedFunction) -> FunctionExpr {
        match function {
            EvaluatedFunction::Boolean(function) => FunctionExpr::Boolean(function.into()),
            EvaluatedFunction::Negate => FunctionExpr::Negate,
            EvaluatedFunction::Fused(operator) => FunctionExpr::Fused(operator),
        }
    }
}
