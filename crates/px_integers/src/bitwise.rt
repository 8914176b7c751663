//! Operations bit by bit.
ghost use Rattle.std.specs.Prelude.{bit_and, bit_or, bit_xor};
ghost use Rattle.std.specs.Int.Bits.{and_lt};
ghost use Rattle.std.proofs.lemmas.Nat.{or_lt, xor_lt};
ghost use Rattle.px_semantics.specs.Bitwise.{bitwise};

use crate::integer::Integer;
use crate::operation::Operation;

/// The bits that both have.
pub struct BitAnd;

/// The bits that one of the two has.
pub struct BitOr;

/// The bits that just one of the two has.
pub struct BitXor;

impl<T: Integer> Operation<T> for BitAnd {
    ghost meaning = { bitwise bit_and T.value_type };

    ghost range = { λ x y p q. T.bits_range bit_and and_lt x y p q };

    fn apply(x: T, y: T) -> T {
        x.bits_and(y)
    }
}

impl<T: Integer> Operation<T> for BitOr {
    ghost meaning = { bitwise bit_or T.value_type };

    ghost range = { λ x y p q. T.bits_range bit_or or_lt x y p q };

    fn apply(x: T, y: T) -> T {
        x.bits_or(y)
    }
}

impl<T: Integer> Operation<T> for BitXor {
    ghost meaning = { bitwise bit_xor T.value_type };

    ghost range = { λ x y p q. T.bits_range bit_xor xor_lt x y p q };

    fn apply(x: T, y: T) -> T {
        x.bits_xor(y)
    }
}
