//! Operations on two numbers of one integer type.
ghost use Rattle.std.specs.Prelude.{◌≡◌, ℤ};
ghost use Rattle.px_types.specs.Integers.{InRange};

use crate::integer::Integer;

/// An operation on two numbers of a type that always gives a number of the type.
pub trait Operation<T: Integer> {
    ghost meaning: { ℤ → ℤ → ℤ };

    fn apply(x: T, y: T) -> T
        ensures { T.integer result ≡ meaning (T.integer x) (T.integer y) };

    ghost range: { (x y : ℤ) → InRange T.value_type x → InRange T.value_type y → InRange T.value_type (meaning x y) };
}
