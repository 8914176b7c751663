//! The operators of two operands.

use std::fmt;

/// An operator of two operands. `EqValidity` and `NotEqValidity` take two nulls for equal. `And`,
/// `Or` and `Xor` go bit by bit on integers; `LogicalAnd` and `LogicalOr` take Booleans alone. The
/// names are Polars'.
#[derive(Clone, Copy, Debug, PartialEq, Eq, Hash)]
pub enum Operator {
    Eq,
    EqValidity,
    NotEq,
    NotEqValidity,
    Lt,
    LtEq,
    Gt,
    GtEq,
    Plus,
    Minus,
    Multiply,
    Divide,
    TrueDivide,
    FloorDivide,
    Modulus,
    And,
    Or,
    Xor,
    LogicalAnd,
    LogicalOr,
}

impl fmt::Display for Operator {
    ghost use Rattle.std.specs.Prelude.{Some};
    ghost use Rattle.px_types.specs.Operators.{operator_text};

    ghost output = { λ op. Some (operator_text op) };

    #[tactic(auto, unfolding(crate::specs::Operators::operator_text))]
    fn fmt<W: fmt::Write>(&self, f: &mut fmt::Formatter<W>) -> fmt::Result {
        match self {
            Operator::Eq => write!(f, "=="),
            Operator::EqValidity => write!(f, "eq_missing"),
            Operator::NotEq => write!(f, "!="),
            Operator::NotEqValidity => write!(f, "neq_missing"),
            Operator::Lt => write!(f, "<"),
            Operator::LtEq => write!(f, "<="),
            Operator::Gt => write!(f, ">"),
            Operator::GtEq => write!(f, ">="),
            Operator::Plus => write!(f, "+"),
            Operator::Minus => write!(f, "-"),
            Operator::Multiply => write!(f, "*"),
            Operator::Divide => write!(f, "/"),
            Operator::TrueDivide => write!(f, "true_div"),
            Operator::FloorDivide => write!(f, "//"),
            Operator::Modulus => write!(f, "%"),
            Operator::And => write!(f, "&"),
            Operator::Or => write!(f, "|"),
            Operator::Xor => write!(f, "^"),
            Operator::LogicalAnd => write!(f, "&&"),
            Operator::LogicalOr => write!(f, "||"),
        }
    }
}
