//! Writing.

use crate::columns::write_column;
use px_expr::{Expr, ExprList, LiteralValue};
use px_functions::FunctionExpr;
use px_types::{CastOptions, DataType, Operator, PlanError};
use std::alloc::Global;

/// Writes a word, after a space where it is not the first.
pub fn write_word(text: &mut String, word: &str) -> Result<(), PlanError> {
    if !text.is_empty() {
        text.push(' ')?;
    }
    text.push_str(word)?;
    Ok(())
}

fn write_number(
    alloc: Global,
    text: &mut String,
    value: i128,
    name: &str,
) -> Result<(), PlanError> {
    let word = format!(in alloc; "{value}:{name}")?;
    write_word(text, word.as_str())
}

/// Writes a literal.
pub fn write_literal(
    alloc: Global,
    text: &mut String,
    value: &LiteralValue,
) -> Result<(), PlanError> {
    match value {
        LiteralValue::Null => write_word(text, "null"),
        LiteralValue::Boolean(true) => write_word(text, "true"),
        LiteralValue::Boolean(false) => write_word(text, "false"),
        LiteralValue::UInt8(value) => write_number(alloc, text, i128::from(*value), "UInt8"),
        LiteralValue::UInt16(value) => write_number(alloc, text, i128::from(*value), "UInt16"),
        LiteralValue::UInt32(value) => write_number(alloc, text, i128::from(*value), "UInt32"),
        LiteralValue::UInt64(value) => write_number(alloc, text, i128::from(*value), "UInt64"),
        LiteralValue::Int8(value) => write_number(alloc, text, i128::from(*value), "Int8"),
        LiteralValue::Int16(value) => write_number(alloc, text, i128::from(*value), "Int16"),
        LiteralValue::Int32(value) => write_number(alloc, text, i128::from(*value), "Int32"),
        LiteralValue::Int64(value) => write_number(alloc, text, i128::from(*value), "Int64"),
        LiteralValue::Series(column) => write_column(alloc, text, column),
        _ => write_word(text, "other"),
    }
}

/// Writes a cast: `to_` where it is strict, `as_` where it is not, `wrap_` where it overflows.
pub fn write_cast(
    alloc: Global,
    text: &mut String,
    dtype: &DataType,
    options: CastOptions,
) -> Result<(), PlanError> {
    let start = match options {
        CastOptions::Strict => "to_",
        CastOptions::NonStrict => "as_",
        CastOptions::Overflowing => "wrap_",
    };
    match dtype.value_type() {
        Some(value_type) => {
            let word = format!(in alloc; "{start}{value_type:?}")?;
            write_word(text, word.as_str())
        }
        None => write_word(text, "other"),
    }
}

/// Writes a function.
pub fn write_function(
    alloc: Global,
    text: &mut String,
    function: &FunctionExpr,
) -> Result<(), PlanError> {
    let word = format!(in alloc; "{function}")?;
    write_word(text, word.as_str())
}

/// Writes an operator.
pub fn write_operator(alloc: Global, text: &mut String, op: Operator) -> Result<(), PlanError> {
    let word = format!(in alloc; "{op}")?;
    write_word(text, word.as_str())
}

#[cycle(write)]
fn write_all(alloc: Global, text: &mut String, exprs: &ExprList) -> Result<(), PlanError> {
    for expr in exprs.as_slice() {
        write_text(alloc, text, expr)?;
    }
    Ok(())
}

#[cycle(write)]
fn write_two(alloc: Global, text: &mut String, left: &Expr, right: &Expr) -> Result<(), PlanError> {
    write_text(alloc, text, left)?;
    write_text(alloc, text, right)
}

/// Writes the text of an expression.
#[cycle(write)]
pub fn write_text(alloc: Global, text: &mut String, expr: &Expr) -> Result<(), PlanError> {
    match expr {
        Expr::Alias(input, name) => {
            write_text(alloc, text, input.get())?;
            write_word(text, ".")?;
            write_word(text, name.as_str())
        }
        Expr::Column(name) => write_word(text, name.as_str()),
        Expr::Literal(value) => write_literal(alloc, text, value),
        Expr::BinaryExpr { left, op, right } => {
            write_two(alloc, text, left.get(), right.get())?;
            write_operator(alloc, text, *op)
        }
        Expr::Cast {
            expr,
            dtype,
            options,
        } => {
            write_text(alloc, text, expr.get())?;
            write_cast(alloc, text, dtype, *options)
        }
        Expr::Ternary {
            predicate,
            truthy,
            falsy,
        } => {
            write_text(alloc, text, predicate.get())?;
            write_two(alloc, text, truthy.get(), falsy.get())?;
            write_word(text, "if")
        }
        Expr::Function {
            input,
            function,
            options: _,
        } => {
            write_all(alloc, text, input)?;
            write_function(alloc, text, function)
        }
        _ => write_word(text, "other"),
    }
}
