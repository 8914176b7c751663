//! Operators on two integers of one type.
ghost use Rattle.std.specs.Prelude.{◌≡◌, option_map};
ghost use Rattle.px_semantics.specs.Arithmetic.{is_zero};
ghost use Rattle.px_integers.specs.Quotients.{quotient_of, remainder_of};
ghost use Rattle.px_meaning.specs.Literals.{literal_of};
ghost use Rattle.px_rules.specs.Folding.{compared, calculated, folded_numbers};

use px_expr::LiteralValue;
use px_integers::{Integer, Operation, Quotient, Remainder};
use px_types::Operator;
use std::cmp::Ordering;

/// An integer that operators fold.
pub trait FoldInteger: Integer {
    /// The floor quotient, taken into the type, and 0 where the divisor is 0.
    fn quotient(self, other: Self) -> Self
        ensures { Self.integer result ≡ quotient_of Self.value_type (Self.integer self) (Self.integer other) };

    /// What it leaves.
    fn rest(self, other: Self) -> Self
        ensures { Self.integer result ≡ remainder_of (Self.integer self) (Self.integer other) };

    /// Its literal.
    fn literal(self) -> LiteralValue
        ensures { result ≡ literal_of Self.value_type (Self.integer self) };
}

impl FoldInteger for u8 {
    fn quotient(self, other: u8) -> u8 {
        Quotient::apply(self, other)
    }

    fn rest(self, other: u8) -> u8 {
        Remainder::apply(self, other)
    }

    fn literal(self) -> LiteralValue {
        LiteralValue::UInt8(self)
    }
}

impl FoldInteger for u16 {
    fn quotient(self, other: u16) -> u16 {
        Quotient::apply(self, other)
    }

    fn rest(self, other: u16) -> u16 {
        Remainder::apply(self, other)
    }

    fn literal(self) -> LiteralValue {
        LiteralValue::UInt16(self)
    }
}

impl FoldInteger for u32 {
    fn quotient(self, other: u32) -> u32 {
        Quotient::apply(self, other)
    }

    fn rest(self, other: u32) -> u32 {
        Remainder::apply(self, other)
    }

    fn literal(self) -> LiteralValue {
        LiteralValue::UInt32(self)
    }
}

impl FoldInteger for u64 {
    fn quotient(self, other: u64) -> u64 {
        Quotient::apply(self, other)
    }

    fn rest(self, other: u64) -> u64 {
        Remainder::apply(self, other)
    }

    fn literal(self) -> LiteralValue {
        LiteralValue::UInt64(self)
    }
}

impl FoldInteger for i8 {
    fn quotient(self, other: i8) -> i8 {
        Quotient::apply(self, other)
    }

    fn rest(self, other: i8) -> i8 {
        Remainder::apply(self, other)
    }

    fn literal(self) -> LiteralValue {
        LiteralValue::Int8(self)
    }
}

impl FoldInteger for i16 {
    fn quotient(self, other: i16) -> i16 {
        Quotient::apply(self, other)
    }

    fn rest(self, other: i16) -> i16 {
        Remainder::apply(self, other)
    }

    fn literal(self) -> LiteralValue {
        LiteralValue::Int16(self)
    }
}

impl FoldInteger for i32 {
    fn quotient(self, other: i32) -> i32 {
        Quotient::apply(self, other)
    }

    fn rest(self, other: i32) -> i32 {
        Remainder::apply(self, other)
    }

    fn literal(self) -> LiteralValue {
        LiteralValue::Int32(self)
    }
}

impl FoldInteger for i64 {
    fn quotient(self, other: i64) -> i64 {
        Quotient::apply(self, other)
    }

    fn rest(self, other: i64) -> i64 {
        Remainder::apply(self, other)
    }

    fn literal(self) -> LiteralValue {
        LiteralValue::Int64(self)
    }
}

/// A comparison by the orders of its operands, there and back.
pub fn compared(op: Operator, there: Ordering, back: Ordering) -> Option<bool>
    ensures { result ≡ compared op there back }
{
    match op {
        Operator::Eq | Operator::EqValidity => Some(there.is_eq()),
        Operator::NotEq | Operator::NotEqValidity => Some(!there.is_eq()),
        Operator::Lt => Some(there.is_lt()),
        Operator::LtEq => Some(!back.is_lt()),
        Operator::Gt => Some(back.is_lt()),
        Operator::GtEq => Some(!there.is_lt()),
        _ => None,
    }
}

fn is_zero<T: FoldInteger>(x: T) -> bool
    ensures { result ≡ is_zero (T.integer x) }
{
    x.to_wide() == 0
}

/// An operator of arithmetic on two integers.
fn calculated<T: FoldInteger>(op: Operator, x: T, y: T) -> Option<T>
    ensures { option_map T.integer result ≡ calculated op T.value_type (T.integer x) (T.integer y) }
{
    match op {
        Operator::Plus => Some(x.plus(y)),
        Operator::Minus => Some(x.minus(y)),
        Operator::Multiply => Some(x.times(y)),
        Operator::Divide | Operator::FloorDivide => {
            if is_zero(y) {
                None
            } else {
                Some(x.quotient(y))
            }
        }
        Operator::Modulus => { if is_zero(y) { None } else { Some(x.rest(y)) } }
        _ => None,
    }
}

/// An operator on two integers.
pub fn fold_numbers<T: FoldInteger>(op: Operator, x: T, y: T) -> Option<LiteralValue>
    ensures { result ≡ folded_numbers op T.value_type (T.integer x) (T.integer y) }
{
    match calculated(op, x, y) {
        Some(z) => Some(z.literal()),
        None => {
            let (x, y) = (x.to_wide(), y.to_wide());
            match compared(op, x.cmp(&y), y.cmp(&x)) {
                Some(value) => Some(LiteralValue::Boolean(value)),
                None => None,
            }
        }
    }
}
