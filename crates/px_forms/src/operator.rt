//! The operators, by their names.
ghost use Rattle.std.specs.Prelude.{◌≡◌};
ghost use Rattle.px_forms.specs.Names.{operator_name, operator_named};

use px_types::Operator;

#[tactic(auto, unfolding(crate::specs::Names::operator_name))]
pub(crate) fn name_of(op: Operator) -> &'static str
    ensures { result.now ≡ operator_name op }
{
    match op {
        Operator::Eq => "Eq",
        Operator::EqValidity => "EqValidity",
        Operator::NotEq => "NotEq",
        Operator::NotEqValidity => "NotEqValidity",
        Operator::Lt => "Lt",
        Operator::LtEq => "LtEq",
        Operator::Gt => "Gt",
        Operator::GtEq => "GtEq",
        Operator::Plus => "Plus",
        Operator::Minus => "Minus",
        Operator::Multiply => "Multiply",
        Operator::Divide => "Divide",
        Operator::TrueDivide => "TrueDivide",
        Operator::FloorDivide => "FloorDivide",
        Operator::Modulus => "Modulus",
        Operator::And => "And",
        Operator::Or => "Or",
        Operator::Xor => "Xor",
        Operator::LogicalAnd => "LogicalAnd",
        Operator::LogicalOr => "LogicalOr",
    }
}

#[tactic(auto, unfolding(crate::specs::Names::operator_named))]
pub(crate) fn named(name: &str) -> Option<Operator>
    ensures { result ≡ operator_named name.now }
{
    if name == "Eq" {
        Some(Operator::Eq)
    } else if name == "EqValidity" {
        Some(Operator::EqValidity)
    } else if name == "NotEq" {
        Some(Operator::NotEq)
    } else if name == "NotEqValidity" {
        Some(Operator::NotEqValidity)
    } else if name == "Lt" {
        Some(Operator::Lt)
    } else if name == "LtEq" {
        Some(Operator::LtEq)
    } else if name == "Gt" {
        Some(Operator::Gt)
    } else if name == "GtEq" {
        Some(Operator::GtEq)
    } else if name == "Plus" {
        Some(Operator::Plus)
    } else if name == "Minus" {
        Some(Operator::Minus)
    } else if name == "Multiply" {
        Some(Operator::Multiply)
    } else if name == "Divide" {
        Some(Operator::Divide)
    } else if name == "TrueDivide" {
        Some(Operator::TrueDivide)
    } else if name == "FloorDivide" {
        Some(Operator::FloorDivide)
    } else if name == "Modulus" {
        Some(Operator::Modulus)
    } else if name == "And" {
        Some(Operator::And)
    } else if name == "Or" {
        Some(Operator::Or)
    } else if name == "Xor" {
        Some(Operator::Xor)
    } else if name == "LogicalAnd" {
        Some(Operator::LogicalAnd)
    } else if name == "LogicalOr" {
        Some(Operator::LogicalOr)
    } else {
        None
    }
}
