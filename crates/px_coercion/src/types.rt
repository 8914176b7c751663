//! The types of nodes, from those of their inputs.
ghost use Rattle.std.specs.Prelude.{◌≡◌, IsTrue, ◌↔◌, map, option_map};
ghost use Rattle.px_types.specs.Classes.{is_boolean_or_integer};
ghost use Rattle.px_types.specs.ValueTypes.{value_type_of};
ghost use Rattle.px_meaning.specs.Signatures.{is_type, integer_type, signed_type, number_type, boolean_type, group_type, group_of, is_castable, cast_type, is_mask, function_signature};
ghost use Rattle.px_meaning.specs.Check.{column_type};
ghost use Rattle.px_coercion.specs.Found.{read, sole_type, uniform_signature};

use crate::found::Operand;
use crate::unite::united;
use px_functions::{EvaluatedBoolean, EvaluatedFunction};
use px_types::{DataType, Operator, ValueType};

fn same_type(a: ValueType, b: ValueType) -> bool
    ensures { IsTrue result ↔ (a ≡ b) }
{
    a == b
}

/// Whether two types are one.
pub fn is_type(a: ValueType, b: ValueType) -> bool
    ensures { result ≡ is_type a b }
{
    same_type(a, b)
}

/// Whether it is `Boolean` or an integer type.
pub fn is_boolean_or_integer(value_type: ValueType) -> bool
    ensures { result ≡ is_boolean_or_integer value_type }
{
    match value_type {
        ValueType::Null | ValueType::String => false,
        _ => true,
    }
}

fn is_castable(value_type: ValueType) -> bool
    ensures { result ≡ is_castable value_type }
{
    match value_type {
        ValueType::String => false,
        _ => true,
    }
}

/// Whether it is the type of a mask.
pub fn is_mask(value_type: Option<ValueType>) -> bool
    ensures { result ≡ is_mask value_type }
{
    match value_type {
        Some(ValueType::Boolean | ValueType::Null) => true,
        _ => false,
    }
}

fn integer_type(value_type: ValueType) -> Option<ValueType>
    ensures { result ≡ integer_type value_type }
{
    if value_type.is_integer() {
        Some(value_type)
    } else {
        None
    }
}

fn number_type(value_type: ValueType) -> Option<ValueType>
    ensures { result ≡ number_type value_type }
{
    if is_boolean_or_integer(value_type) {
        Some(value_type)
    } else {
        None
    }
}

fn boolean_type(value_type: ValueType) -> Option<ValueType>
    ensures { result ≡ boolean_type value_type }
{
    match value_type {
        ValueType::Boolean => Some(value_type),
        _ => None,
    }
}

fn signed_type(value_type: ValueType) -> Option<ValueType>
    ensures { result ≡ signed_type value_type }
{
    match value_type {
        ValueType::Int8 | ValueType::Int16 | ValueType::Int32 | ValueType::Int64 => Some(
            value_type,
        ),
        _ => None,
    }
}

/// The type of a column of the schema.
pub fn column_type(dtype: &DataType) -> Option<ValueType>
    ensures { result ≡ column_type dtype.now }
{
    let value_type = dtype.value_type()?;
    if is_castable(value_type) {
        Some(value_type)
    } else {
        None
    }
}

/// The type of an operator, from the type to which its operands unite.
pub fn operator_type(op: Operator, value_type: ValueType) -> Option<ValueType>
    ensures { result ≡ group_type (group_of op) value_type }
{
    match op {
        Operator::Eq
        | Operator::EqValidity
        | Operator::NotEq
        | Operator::NotEqValidity
        | Operator::Lt
        | Operator::LtEq
        | Operator::Gt
        | Operator::GtEq => Some(ValueType::Boolean),
        Operator::Plus
        | Operator::Minus
        | Operator::Multiply
        | Operator::Divide
        | Operator::FloorDivide
        | Operator::Modulus => integer_type(value_type),
        Operator::TrueDivide => None,
        Operator::And | Operator::Or | Operator::Xor => number_type(value_type),
        Operator::LogicalAnd | Operator::LogicalOr => boolean_type(value_type),
    }
}

/// The type of a cast of such an input.
pub fn cast_type(dtype: &DataType, from: ValueType) -> Option<ValueType>
    ensures { result ≡ cast_type (value_type_of dtype.now) from }
{
    let to = dtype.value_type()?;
    if is_type(from, to) || (is_castable(from) && is_castable(to)) {
        Some(to)
    } else {
        None
    }
}

fn sole_type(operands: &[Operand]) -> Option<ValueType>
    ensures { result ≡ sole_type (map read operands.now) }
{
    match operands {
        [operand] => operand.own_type(),
        _ => None,
    }
}

/// The type that a function wants of each input, and its own.
#[tactic(auto, using(crate::proofs::Steps::unary_even))]
pub fn function_types(
    function: EvaluatedFunction,
    operands: &[Operand],
) -> Option<(ValueType, ValueType)>
    ensures { function_signature function (map read operands.now)
        ≡ option_map (uniform_signature (map read operands.now)) result }
{
    match function {
        EvaluatedFunction::Boolean(EvaluatedBoolean::IsNull | EvaluatedBoolean::IsNotNull) => {
            let value_type = sole_type(operands)?;
            Some((value_type, ValueType::Boolean))
        }
        EvaluatedFunction::Boolean(EvaluatedBoolean::Not) => {
            let value_type = sole_type(operands)?;
            Some((value_type, number_type(value_type)?))
        }
        EvaluatedFunction::Negate => {
            let value_type = sole_type(operands)?;
            Some((value_type, signed_type(value_type)?))
        }
        EvaluatedFunction::Fused(_) => {
            if operands.len() != 3 {
                return None;
            }
            let value_type = united(operands)?;
            Some((value_type, integer_type(value_type)?))
        }
    }
}
