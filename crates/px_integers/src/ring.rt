//! The sum, the difference and the product, taken into the type.
ghost use Rattle.std.specs.Prelude.{◌+ℤ◌, ◌-ℤ◌, ◌*ℤ◌};
ghost use Rattle.px_types.specs.Integers.{into};

use crate::integer::Integer;
use crate::operation::Operation;

/// The sum, taken into the type.
pub struct Sum;

/// The difference, taken into the type.
pub struct Difference;

/// The product, taken into the type.
pub struct Product;

impl<T: Integer> Operation<T> for Sum {
    ghost meaning = { λ x y. into T.value_type (x +ℤ y) };

    ghost range = { λ x y p q. T.into_range (x +ℤ y) };

    fn apply(x: T, y: T) -> T {
        x.plus(y)
    }
}

impl<T: Integer> Operation<T> for Difference {
    ghost meaning = { λ x y. into T.value_type (x -ℤ y) };

    ghost range = { λ x y p q. T.into_range (x -ℤ y) };

    fn apply(x: T, y: T) -> T {
        x.minus(y)
    }
}

impl<T: Integer> Operation<T> for Product {
    ghost meaning = { λ x y. into T.value_type (x *ℤ y) };

    ghost range = { λ x y p q. T.into_range (x *ℤ y) };

    fn apply(x: T, y: T) -> T {
        x.times(y)
    }
}
