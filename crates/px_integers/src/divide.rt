//! Floor division of integers: quotients and remainders.
ghost use Rattle.std.specs.Prelude.{◌≡◌, ◌≢◌, pos, int_div, int_rem};
ghost use Rattle.px_types.specs.Integers.{into, InRange};
ghost use Rattle.px_semantics.proofs.Quotients.{remainder_of_range};
ghost use Rattle.px_integers.specs.Quotients.{quotient_of, remainder_of, has_opposite_sign};
ghost use Rattle.px_semantics.proofs.Ranges.{quotient_of_range};

use crate::integer::Integer;
use crate::operation::Operation;

/// The floor quotient, taken into the type, and 0 where the divisor is 0.
pub struct Quotient;

/// The remainder of floor division, and 0 where the divisor is 0.
pub struct Remainder;

/// An integer type with the division of processors, which rounds towards zero.
pub trait Division: Integer {
    /// The quotient rounded towards zero, taken into the type.
    fn truncated_quotient(self, divisor: Self) -> Self
        requires { Self.integer divisor ≢ pos 0 }
        ensures { Self.integer result ≡ into Self.value_type (int_div (Self.integer self) (Self.integer divisor)) };

    /// The remainder of that quotient, which has the sign of the dividend.
    fn truncated_remainder(self, divisor: Self) -> Self
        requires { Self.integer divisor ≢ pos 0 }
        ensures value { Self.integer result ≡ int_rem (Self.integer self) (Self.integer divisor) }
        ensures range { InRange Self.value_type (Self.integer divisor) };
}

/// Whether a remainder that was rounded towards zero has not the sign of its divisor.
fn has_opposite_sign<T: Integer>(remainder: T, divisor: T) -> bool
    ensures { result ≡ has_opposite_sign (T.integer remainder) (T.integer divisor) }
{
    let zero = T::zero();
    if divisor.is_less(zero) {
        zero.is_less(remainder)
    } else {
        remainder.is_less(zero)
    }
}

fn floor_quotient<T: Division>(dividend: T, divisor: T) -> T
    ensures { T.integer result ≡ quotient_of T.value_type (T.integer dividend) (T.integer divisor) }
{
    let zero = T::zero();
    if divisor.is_same(zero) {
        return zero;
    }
    let quotient = dividend.truncated_quotient(divisor);
    let remainder = dividend.truncated_remainder(divisor);
    if has_opposite_sign(remainder, divisor) {
        // The complement of 0 is -1, taken into the type.
        return quotient.plus(zero.bits_not());
    }
    quotient
}

fn floor_remainder<T: Division>(dividend: T, divisor: T) -> T
    ensures { T.integer result ≡ remainder_of (T.integer dividend) (T.integer divisor) }
{
    let zero = T::zero();
    if divisor.is_same(zero) {
        return zero;
    }
    let remainder = dividend.truncated_remainder(divisor);
    if has_opposite_sign(remainder, divisor) {
        return remainder.plus(divisor);
    }
    remainder
}

impl<T: Division> Operation<T> for Quotient {
    ghost meaning = { quotient_of T.value_type };

    ghost range = { λ x y p q. quotient_of_range T.value_type T.into_range x y q };

    fn apply(x: T, y: T) -> T {
        floor_quotient(x, y)
    }
}

impl<T: Division> Operation<T> for Remainder {
    ghost meaning = { remainder_of };

    ghost range = { λ x y p q. remainder_of_range T.value_type x y q };

    fn apply(x: T, y: T) -> T {
        floor_remainder(x, y)
    }
}

impl Division for i8 {
    fn truncated_quotient(self, divisor: i8) -> i8 {
        self.wrapping_div(divisor)
    }

    fn truncated_remainder(self, divisor: i8) -> i8 {
        self.wrapping_rem(divisor)
    }
}

impl Division for i16 {
    fn truncated_quotient(self, divisor: i16) -> i16 {
        self.wrapping_div(divisor)
    }

    fn truncated_remainder(self, divisor: i16) -> i16 {
        self.wrapping_rem(divisor)
    }
}

impl Division for i32 {
    fn truncated_quotient(self, divisor: i32) -> i32 {
        self.wrapping_div(divisor)
    }

    fn truncated_remainder(self, divisor: i32) -> i32 {
        self.wrapping_rem(divisor)
    }
}

impl Division for i64 {
    fn truncated_quotient(self, divisor: i64) -> i64 {
        self.wrapping_div(divisor)
    }

    fn truncated_remainder(self, divisor: i64) -> i64 {
        self.wrapping_rem(divisor)
    }
}

impl Division for u8 {
    fn truncated_quotient(self, divisor: u8) -> u8 {
        self.wrapping_div(divisor)
    }

    fn truncated_remainder(self, divisor: u8) -> u8 {
        self.wrapping_rem(divisor)
    }
}

impl Division for u16 {
    fn truncated_quotient(self, divisor: u16) -> u16 {
        self.wrapping_div(divisor)
    }

    fn truncated_remainder(self, divisor: u16) -> u16 {
        self.wrapping_rem(divisor)
    }
}

impl Division for u32 {
    fn truncated_quotient(self, divisor: u32) -> u32 {
        self.wrapping_div(divisor)
    }

    fn truncated_remainder(self, divisor: u32) -> u32 {
        self.wrapping_rem(divisor)
    }
}

impl Division for u64 {
    fn truncated_quotient(self, divisor: u64) -> u64 {
        self.wrapping_div(divisor)
    }

    fn truncated_remainder(self, divisor: u64) -> u64 {
        self.wrapping_rem(divisor)
    }
}
