//! Reading.

use crate::columns::read_column;
use crate::words::{Word, type_named, word_of};
use px_expr::{AggExpr, Expr, ExprList, LiteralValue, binary_expr};
use px_functions::FunctionExpr;
use px_types::{
    CastOptions, FunctionOptions, List, Operator, PlanError, SmallStr, ValueType, boxed,
};
use std::alloc::Global;

fn pop(stack: &mut Vec<Expr>) -> Result<Expr, PlanError> {
    match stack.pop() {
        Some(expr) => Ok(expr),
        None => Err(PlanError::OutOfBounds),
    }
}

// The last expressions of the stack, in the order in which they were put there.
fn inputs(alloc: Global, stack: &mut Vec<Expr>, count: u8) -> Result<ExprList, PlanError> {
    let mut reversed = Vec::new(alloc);
    for _i in 0..count {
        reversed.push(pop(stack)?)?;
    }
    turned(alloc, reversed)
}

fn turned(alloc: Global, mut reversed: Vec<Expr>) -> Result<ExprList, PlanError> {
    let mut list = List::new(alloc);
    for _i in 0..reversed.len() {
        list.try_push(pop(&mut reversed)?)?;
    }
    Ok(list)
}

fn binary(alloc: Global, stack: &mut Vec<Expr>, op: Operator) -> Result<Expr, PlanError> {
    let right = pop(stack)?;
    let left = pop(stack)?;
    binary_expr(alloc, left, op, right)
}

fn ternary(alloc: Global, stack: &mut Vec<Expr>) -> Result<Expr, PlanError> {
    let falsy = boxed(alloc, pop(stack)?)?;
    let truthy = boxed(alloc, pop(stack)?)?;
    let predicate = boxed(alloc, pop(stack)?)?;
    Ok(Expr::Ternary {
        predicate,
        truthy,
        falsy,
    })
}

fn filter(alloc: Global, stack: &mut Vec<Expr>) -> Result<Expr, PlanError> {
    let by = boxed(alloc, pop(stack)?)?;
    let input = boxed(alloc, pop(stack)?)?;
    Ok(Expr::Filter { input, by })
}

fn function(
    alloc: Global,
    stack: &mut Vec<Expr>,
    function: FunctionExpr,
    count: u8,
) -> Result<Expr, PlanError> {
    Ok(Expr::Function {
        input: inputs(alloc, stack, count)?,
        function,
        options: FunctionOptions::default(),
    })
}

fn kernel(alloc: Global, stack: &mut Vec<Expr>) -> Result<Expr, PlanError> {
    Ok(Expr::AnonymousFunction {
        input: inputs(alloc, stack, 1)?,
        kernel: 0,
        options: FunctionOptions::default(),
    })
}

fn cast(
    alloc: Global,
    stack: &mut Vec<Expr>,
    value_type: ValueType,
    options: CastOptions,
) -> Result<Expr, PlanError> {
    Ok(Expr::Cast {
        expr: boxed(alloc, pop(stack)?)?,
        dtype: value_type.dtype(),
        options,
    })
}

fn minimum(alloc: Global, stack: &mut Vec<Expr>) -> Result<Expr, PlanError> {
    Ok(Expr::Agg(AggExpr::Min(boxed(alloc, pop(stack)?)?)))
}

fn exploded(alloc: Global, stack: &mut Vec<Expr>) -> Result<Expr, PlanError> {
    Ok(Expr::Explode(boxed(alloc, pop(stack)?)?))
}

fn string(alloc: Global, text: &str) -> Result<Expr, PlanError> {
    Ok(Expr::Literal(LiteralValue::String(SmallStr::new(alloc, text)?)))
}

fn node_of(alloc: Global, stack: &mut Vec<Expr>, word: Word) -> Result<Expr, PlanError> {
    match word {
        Word::Null => Ok(Expr::Literal(LiteralValue::Null)),
        Word::Boolean(value) => Ok(Expr::Literal(LiteralValue::Boolean(value))),
        Word::Text => string(alloc, "text"),
        Word::WideInteger => Ok(Expr::Literal(LiteralValue::Int128(1))),
        Word::Operator(op) => binary(alloc, stack, op),
        Word::Predicate(own, count) => function(alloc, stack, FunctionExpr::Boolean(own), count),
        Word::Negate => function(alloc, stack, FunctionExpr::Negate, 1),
        Word::Fused(own, count) => function(alloc, stack, FunctionExpr::Fused(own), count),
        Word::Cast(value_type, options) => cast(alloc, stack, value_type, options),
        Word::Ternary => ternary(alloc, stack),
        Word::Filter => filter(alloc, stack),
        Word::Kernel => kernel(alloc, stack),
        Word::Min => minimum(alloc, stack),
        Word::Explode => exploded(alloc, stack),
        Word::Len => Ok(Expr::Len),
    }
}

// The number as a literal of the type.
fn typed(value: i128, value_type: ValueType) -> Option<LiteralValue> {
    match value_type {
        ValueType::UInt8 => Some(LiteralValue::UInt8(u8::try_from(value).ok()?)),
        ValueType::UInt16 => Some(LiteralValue::UInt16(u16::try_from(value).ok()?)),
        ValueType::UInt32 => Some(LiteralValue::UInt32(u32::try_from(value).ok()?)),
        ValueType::UInt64 => Some(LiteralValue::UInt64(u64::try_from(value).ok()?)),
        ValueType::Int8 => Some(LiteralValue::Int8(i8::try_from(value).ok()?)),
        ValueType::Int16 => Some(LiteralValue::Int16(i16::try_from(value).ok()?)),
        ValueType::Int32 => Some(LiteralValue::Int32(i32::try_from(value).ok()?)),
        ValueType::Int64 => Some(LiteralValue::Int64(i64::try_from(value).ok()?)),
        ValueType::Null | ValueType::Boolean | ValueType::String => None,
    }
}

// A number before `:Int8` is a literal of this type, and one alone has no type.
fn number_of(word: &str) -> Option<LiteralValue> {
    match word.split_once(':') {
        Some((digits, name)) => typed(digits.parse::<i128>().ok()?, type_named(name)?),
        None => Some(LiteralValue::Int(word.parse::<i128>().ok()?)),
    }
}

fn named(alloc: Global, stack: &mut Vec<Expr>, word: &str) -> Result<Expr, PlanError> {
    match word.strip_prefix(".") {
        Some(name) => pop(stack)?.alias(alloc, name),
        None => Ok(Expr::Column(SmallStr::new(alloc, word)?)),
    }
}

// A column is a series literal.
fn leaf(alloc: Global, stack: &mut Vec<Expr>, word: &str) -> Result<Expr, PlanError> {
    if word.ends_with(')') {
        return Ok(Expr::Literal(LiteralValue::Series(read_column(alloc, word)?)));
    }
    match number_of(word) {
        Some(value) => Ok(Expr::Literal(value)),
        None => named(alloc, stack, word),
    }
}

fn expr_of(alloc: Global, stack: &mut Vec<Expr>, text: &str) -> Result<Expr, PlanError> {
    match word_of(text) {
        Some(word) => node_of(alloc, stack, word),
        None => leaf(alloc, stack, text),
    }
}

/// The expressions of a text.
pub fn read_text(alloc: Global, text: &str) -> Result<Vec<Expr>, PlanError> {
    let mut stack = Vec::new(alloc);
    for word in text.split_whitespace() {
        let expr = expr_of(alloc, &mut stack, word)?;
        stack.push(expr)?;
    }
    Ok(stack)
}

/// The last expression of a text.
pub fn read_expr(alloc: Global, text: &str) -> Result<Expr, PlanError> {
    let mut stack = read_text(alloc, text)?;
    pop(&mut stack)
}
