//! The numbers of the eight integer types as one trait.
ghost use Rattle.std.specs.Prelude.{◌≡◌, ◌<◌, ◌^◌, ℕ, int_lt, bit_and, bit_or, bit_xor, IfSome, IsSome, IsTrue, ◌↔◌, ℤ, pos, ◌+ℤ◌, ◌-ℤ◌, ◌*ℤ◌};
ghost use Rattle.px_semantics.specs.Bitwise.{bitwise, complement};
ghost use Rattle.px_types.specs.Integers.{into, InRange};
ghost use Rattle.px_types.specs.declared.value_type.ValueType.{ValueType};

/// A number of one of the eight integer types.
pub trait Integer: Copy + Drop {
    /// The integer that it stands for.
    ghost integer: { Self → ℤ };

    /// Its type.
    ghost value_type: { ValueType };

    fn zero() -> Self
        ensures value { integer result ≡ pos 0 }
        ensures inside { InRange value_type (integer result) };

    /// The value of this number, where the type has it.
    fn from_wide(wide: i128) -> Option<Self>
        ensures value { IfSome result (λ x. integer x ≡ wide) }
        ensures inside { IsSome result ↔ InRange value_type wide };

    fn to_wide(self) -> i128
        ensures value { result ≡ integer self }
        ensures inside { InRange value_type (integer self) };

    fn plus(self, other: Self) -> Self
        ensures { integer result ≡ into value_type (integer self +ℤ integer other) };

    fn minus(self, other: Self) -> Self
        ensures { integer result ≡ into value_type (integer self -ℤ integer other) };

    fn times(self, other: Self) -> Self
        ensures { integer result ≡ into value_type (integer self *ℤ integer other) };

    fn bits_and(self, other: Self) -> Self
        ensures { integer result ≡ bitwise bit_and value_type (integer self) (integer other) };

    fn bits_or(self, other: Self) -> Self
        ensures { integer result ≡ bitwise bit_or value_type (integer self) (integer other) };

    fn bits_xor(self, other: Self) -> Self
        ensures { integer result ≡ bitwise bit_xor value_type (integer self) (integer other) };

    fn bits_not(self) -> Self
        ensures { integer result ≡ complement value_type (integer self) };

    fn is_less(self, other: Self) -> bool
        ensures { result ≡ int_lt (integer self) (integer other) };

    fn is_same(self, other: Self) -> bool
        ensures { IsTrue result ↔ (integer self ≡ integer other) };

    /// What is taken into the type is one of its numbers.
    ghost into_range: { (z : ℤ) → InRange value_type (into value_type z) };

    /// A bit operation that keeps the number of bits gives numbers of the type.
    ghost bits_range: { (f : ℕ → ℕ → ℕ) → ((k a b : ℕ) → a < 2 ^ k → b < 2 ^ k → f a b < 2 ^ k) → (x y : ℤ) → InRange value_type x → InRange value_type y → InRange value_type (bitwise f value_type x y) };

    ghost complement_range: { (x : ℤ) → InRange value_type x → InRange value_type (complement value_type x) };
}
