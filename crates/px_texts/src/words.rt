//! The words that stand for nodes.

use px_functions::BooleanFunction;
use px_types::{CastOptions, FusedOperator, Operator, ValueType};

/// What a word stands for. A function has so many inputs.
#[derive(Clone, Copy)]
pub enum Word {
    Null,
    Boolean(bool),
    Text,
    WideInteger,
    Operator(Operator),
    Predicate(BooleanFunction, u8),
    Negate,
    Fused(FusedOperator, u8),
    Cast(ValueType, CastOptions),
    Ternary,
    Filter,
    Kernel,
    Min,
    Explode,
    Len,
}

const LEAVES: &[(&str, Word)] = &[
    ("null", Word::Null),
    ("true", Word::Boolean(true)),
    ("false", Word::Boolean(false)),
    ("text", Word::Text),
    ("Int128", Word::WideInteger),
    ("len", Word::Len),
];

const OPERATORS: &[(&str, Operator)] = &[
    ("==", Operator::Eq),
    ("eq_missing", Operator::EqValidity),
    ("!=", Operator::NotEq),
    ("neq_missing", Operator::NotEqValidity),
    ("<", Operator::Lt),
    ("<=", Operator::LtEq),
    (">", Operator::Gt),
    (">=", Operator::GtEq),
    ("+", Operator::Plus),
    ("-", Operator::Minus),
    ("*", Operator::Multiply),
    ("/", Operator::Divide),
    ("true_div", Operator::TrueDivide),
    ("//", Operator::FloorDivide),
    ("%", Operator::Modulus),
    ("&", Operator::And),
    ("|", Operator::Or),
    ("^", Operator::Xor),
    ("&&", Operator::LogicalAnd),
    ("||", Operator::LogicalOr),
];

const NODES: &[(&str, Word)] = &[
    ("not", Word::Predicate(BooleanFunction::Not, 1)),
    ("not_two", Word::Predicate(BooleanFunction::Not, 2)),
    ("not_none", Word::Predicate(BooleanFunction::Not, 0)),
    ("is_null", Word::Predicate(BooleanFunction::IsNull, 1)),
    (
        "is_not_null",
        Word::Predicate(BooleanFunction::IsNotNull, 1),
    ),
    ("is_unique", Word::Predicate(BooleanFunction::IsUnique, 1)),
    ("negate", Word::Negate),
    ("fma", Word::Fused(FusedOperator::MultiplyAdd, 3)),
    ("fma_two", Word::Fused(FusedOperator::MultiplyAdd, 2)),
    ("fsm", Word::Fused(FusedOperator::SubMultiply, 3)),
    ("fms", Word::Fused(FusedOperator::MultiplySub, 3)),
    ("if", Word::Ternary),
    ("filter", Word::Filter),
    ("kernel", Word::Kernel),
    ("min", Word::Min),
    ("explode", Word::Explode),
];

const TYPES: &[(&str, ValueType)] = &[
    ("Null", ValueType::Null),
    ("Boolean", ValueType::Boolean),
    ("String", ValueType::String),
    ("UInt8", ValueType::UInt8),
    ("UInt16", ValueType::UInt16),
    ("UInt32", ValueType::UInt32),
    ("UInt64", ValueType::UInt64),
    ("Int8", ValueType::Int8),
    ("Int16", ValueType::Int16),
    ("Int32", ValueType::Int32),
    ("Int64", ValueType::Int64),
];

const CASTS: &[(&str, CastOptions)] = &[
    ("to_", CastOptions::Strict),
    ("as_", CastOptions::NonStrict),
    ("wrap_", CastOptions::Overflowing),
];

/// The type of this name.
pub fn type_named(text: &str) -> Option<ValueType> {
    for entry in TYPES {
        if entry.0 == text {
            return Some(entry.1);
        }
    }
    None
}

// A cast is the word of its options and the name of its type.
fn cast(text: &str) -> Option<Word> {
    for entry in CASTS {
        if let Some(name) = text.strip_prefix(entry.0) {
            return Some(Word::Cast(type_named(name)?, entry.1));
        }
    }
    None
}

fn find(words: &[(&str, Word)], text: &str) -> Option<Word> {
    for entry in words {
        if entry.0 == text {
            return Some(entry.1);
        }
    }
    None
}

fn operator(text: &str) -> Option<Word> {
    for entry in OPERATORS {
        if entry.0 == text {
            return Some(Word::Operator(entry.1));
        }
    }
    None
}

/// What a word stands for, where it is none of a name or a number.
pub fn word_of(text: &str) -> Option<Word> {
    match find(LEAVES, text) {
        Some(word) => Some(word),
        None => match operator(text) {
            Some(word) => Some(word),
            None => match find(NODES, text) {
                Some(word) => Some(word),
                None => cast(text),
            },
        },
    }
}
