//! What a node shows to a rule.
ghost use Rattle.std.specs.Prelude.{◌≡◌};
ghost use Rattle.std.specs.Option.{option_copied};
ghost use Rattle.px_meaning.specs.Literals.{is_scalar};
ghost use Rattle.px_meaning.specs.Rewrites.{is_literal};
ghost use Rattle.px_arena.specs.Denotes.{root_of};
ghost use Rattle.px_rules.specs.Views.{binary_of, boolean_of, not_of, boolean_literal_of, literal_of, is_scalar_literal, negate_of};

use px_arena::{AExpr, Node};
use px_expr::LiteralValue;
use px_functions::{EvaluatedBoolean, EvaluatedFunction};
use px_types::{FunctionOptions, Operator};

/// An operator over two operands.
#[derive(Clone, Copy)]
pub struct BinaryParts {
    pub left: Node,
    pub op: Operator,
    pub right: Node,
}

/// A Boolean function over one input.
#[derive(Clone, Copy)]
pub struct BooleanCall {
    pub function: EvaluatedBoolean,
    pub input: Node,
    pub options: FunctionOptions,
}

/// The operator and the operands of a node.
pub fn binary_of(expr: &AExpr) -> Option<BinaryParts>
    ensures { result ≡ binary_of expr.now }
{
    match expr {
        AExpr::BinaryExpr { left, op, right } => Some(BinaryParts {
            left: *left,
            op: *op,
            right: *right,
        }),
        _ => None,
    }
}

/// The Boolean function of a node, where it has one input.
pub fn boolean_of(expr: &AExpr) -> Option<BooleanCall>
    ensures { result ≡ boolean_of expr.now }
{
    match expr {
        AExpr::Function {
            input,
            function,
            options,
        } => match (function.evaluated(), input.as_slice()) {
            (Some(EvaluatedFunction::Boolean(function)), [place]) => Some(BooleanCall {
                function,
                input: place.0,
                options: *options,
            }),
            _ => None,
        },
        _ => None,
    }
}

/// The Boolean of a literal.
pub fn boolean_literal_of(expr: &AExpr) -> Option<bool>
    ensures { result ≡ boolean_literal_of expr.now }
{
    match expr {
        AExpr::Literal(LiteralValue::Boolean(value)) => Some(*value),
        _ => None,
    }
}

/// The call of a `not`.
pub fn not_of(expr: &AExpr) -> Option<BooleanCall>
    ensures { result ≡ not_of expr.now }
{
    let call = boolean_of(expr)?;
    match call.function {
        EvaluatedBoolean::Not => Some(call),
        _ => None,
    }
}

/// The literal of a node.
pub fn literal_of(expr: &AExpr) -> Option<&LiteralValue>
    ensures { option_copied result ≡ literal_of expr.now }
{
    match expr {
        AExpr::Literal(value) => Some(value),
        _ => None,
    }
}

/// Whether a literal stands for one value.
fn is_scalar(value: &LiteralValue) -> bool
    ensures { result ≡ is_scalar value.now }
{
    match value {
        LiteralValue::Series(_) | LiteralValue::Range { .. } => false,
        _ => true,
    }
}

/// Whether a node is a literal that stands for one value.
pub fn is_scalar_literal(expr: &AExpr) -> bool
    ensures { result ≡ is_scalar_literal expr.now }
{
    match expr {
        AExpr::Literal(value) => is_scalar(value),
        _ => false,
    }
}

/// The input of a minus.
pub fn negate_of(expr: &AExpr) -> Option<Node>
    ensures { result ≡ negate_of expr.now }
{
    match expr {
        AExpr::Function {
            input,
            function,
            ..
        } => match (function.evaluated(), input.as_slice()) {
            (Some(EvaluatedFunction::Negate), [place]) => Some(place.0),
            _ => None,
        },
        _ => None,
    }
}

/// Whether a node is a literal.
pub fn is_literal(expr: &AExpr) -> bool
    ensures { result ≡ is_literal (root_of expr.now) }
{
    match expr {
        AExpr::Literal(_) => true,
        _ => false,
    }
}
