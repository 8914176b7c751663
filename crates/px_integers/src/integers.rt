//! The eight integer types as numbers.
ghost use Rattle.std.specs.Prelude.{◌^◌, ℤ, pos};
ghost use Rattle.std.specs.Int.{w8, w16, w32, w64};
ghost use Rattle.std.proofs.lemmas.Int.{SFits-int_wrap};
ghost use Rattle.std.proofs.Common.{lit<};
ghost use Rattle.px_types.proofs.Residues.{residue_within};
ghost use Rattle.px_types.specs.declared.value_type.ValueType.TheVariants.{Int8, Int16, Int32, Int64, UInt8, UInt16, UInt32, UInt64};
ghost use Rattle.px_semantics.proofs.Ranges.{signed_bits, unsigned_bits, signed_complement, unsigned_complement};

use crate::integer::Integer;

impl Integer for i8 {
    ghost integer = { λ x. x };

    ghost value_type = { Int8 };

    ghost into_range = { λ z. SFits-int_wrap w8 z };

    ghost bits_range = { λ f h x y p q. signed_bits w8 f h x y p q };

    ghost complement_range = { λ x p. signed_complement w8 x p };

    fn zero() -> i8 {
        0
    }

    fn from_wide(wide: i128) -> Option<i8> {
        if wide < -128 || 127 < wide {
            return None;
        }
        Some(wide as i8)
    }

    fn to_wide(self) -> i128 {
        self as i128
    }

    fn plus(self, other: i8) -> i8 {
        self.wrapping_add(other)
    }

    fn minus(self, other: i8) -> i8 {
        self.wrapping_sub(other)
    }

    fn times(self, other: i8) -> i8 {
        self.wrapping_mul(other)
    }

    fn bits_and(self, other: i8) -> i8 {
        self & other
    }

    fn bits_or(self, other: i8) -> i8 {
        self | other
    }

    fn bits_xor(self, other: i8) -> i8 {
        self ^ other
    }

    fn bits_not(self) -> i8 {
        !self
    }

    fn is_less(self, other: i8) -> bool {
        self < other
    }

    fn is_same(self, other: i8) -> bool {
        self == other
    }
}

impl Integer for i16 {
    ghost integer = { λ x. x };

    ghost value_type = { Int16 };

    ghost into_range = { λ z. SFits-int_wrap w16 z };

    ghost bits_range = { λ f h x y p q. signed_bits w16 f h x y p q };

    ghost complement_range = { λ x p. signed_complement w16 x p };

    fn zero() -> i16 {
        0
    }

    fn from_wide(wide: i128) -> Option<i16> {
        if wide < -32768 || 32767 < wide {
            return None;
        }
        Some(wide as i16)
    }

    fn to_wide(self) -> i128 {
        self as i128
    }

    fn plus(self, other: i16) -> i16 {
        self.wrapping_add(other)
    }

    fn minus(self, other: i16) -> i16 {
        self.wrapping_sub(other)
    }

    fn times(self, other: i16) -> i16 {
        self.wrapping_mul(other)
    }

    fn bits_and(self, other: i16) -> i16 {
        self & other
    }

    fn bits_or(self, other: i16) -> i16 {
        self | other
    }

    fn bits_xor(self, other: i16) -> i16 {
        self ^ other
    }

    fn bits_not(self) -> i16 {
        !self
    }

    fn is_less(self, other: i16) -> bool {
        self < other
    }

    fn is_same(self, other: i16) -> bool {
        self == other
    }
}

impl Integer for i32 {
    ghost integer = { λ x. x };

    ghost value_type = { Int32 };

    ghost into_range = { λ z. SFits-int_wrap w32 z };

    ghost bits_range = { λ f h x y p q. signed_bits w32 f h x y p q };

    ghost complement_range = { λ x p. signed_complement w32 x p };

    fn zero() -> i32 {
        0
    }

    fn from_wide(wide: i128) -> Option<i32> {
        if wide < -2147483648 || 2147483647 < wide {
            return None;
        }
        Some(wide as i32)
    }

    fn to_wide(self) -> i128 {
        self as i128
    }

    fn plus(self, other: i32) -> i32 {
        self.wrapping_add(other)
    }

    fn minus(self, other: i32) -> i32 {
        self.wrapping_sub(other)
    }

    fn times(self, other: i32) -> i32 {
        self.wrapping_mul(other)
    }

    fn bits_and(self, other: i32) -> i32 {
        self & other
    }

    fn bits_or(self, other: i32) -> i32 {
        self | other
    }

    fn bits_xor(self, other: i32) -> i32 {
        self ^ other
    }

    fn bits_not(self) -> i32 {
        !self
    }

    fn is_less(self, other: i32) -> bool {
        self < other
    }

    fn is_same(self, other: i32) -> bool {
        self == other
    }
}

impl Integer for i64 {
    ghost integer = { λ x. x };

    ghost value_type = { Int64 };

    ghost into_range = { λ z. SFits-int_wrap w64 z };

    ghost bits_range = { λ f h x y p q. signed_bits w64 f h x y p q };

    ghost complement_range = { λ x p. signed_complement w64 x p };

    fn zero() -> i64 {
        0
    }

    fn from_wide(wide: i128) -> Option<i64> {
        if wide < -9223372036854775808 || 9223372036854775807 < wide {
            return None;
        }
        Some(wide as i64)
    }

    fn to_wide(self) -> i128 {
        self as i128
    }

    fn plus(self, other: i64) -> i64 {
        self.wrapping_add(other)
    }

    fn minus(self, other: i64) -> i64 {
        self.wrapping_sub(other)
    }

    fn times(self, other: i64) -> i64 {
        self.wrapping_mul(other)
    }

    fn bits_and(self, other: i64) -> i64 {
        self & other
    }

    fn bits_or(self, other: i64) -> i64 {
        self | other
    }

    fn bits_xor(self, other: i64) -> i64 {
        self ^ other
    }

    fn bits_not(self) -> i64 {
        !self
    }

    fn is_less(self, other: i64) -> bool {
        self < other
    }

    fn is_same(self, other: i64) -> bool {
        self == other
    }
}

impl Integer for u8 {
    ghost integer = { pos };

    ghost value_type = { UInt8 };

    ghost into_range = { λ z. residue_within z (2 ^ 8) (lit< tt) };

    ghost bits_range = { λ f h x y p q. unsigned_bits 8 f h x y p q };

    ghost complement_range = { λ x p. unsigned_complement w8 x p };

    fn zero() -> u8 {
        0
    }

    fn from_wide(wide: i128) -> Option<u8> {
        if wide < 0 || 255 < wide {
            return None;
        }
        Some(wide as u8)
    }

    fn to_wide(self) -> i128 {
        self as i128
    }

    fn plus(self, other: u8) -> u8 {
        self.wrapping_add(other)
    }

    fn minus(self, other: u8) -> u8 {
        self.wrapping_sub(other)
    }

    fn times(self, other: u8) -> u8 {
        self.wrapping_mul(other)
    }

    fn bits_and(self, other: u8) -> u8 {
        self & other
    }

    fn bits_or(self, other: u8) -> u8 {
        self | other
    }

    fn bits_xor(self, other: u8) -> u8 {
        self ^ other
    }

    fn bits_not(self) -> u8 {
        !self
    }

    fn is_less(self, other: u8) -> bool {
        self < other
    }

    fn is_same(self, other: u8) -> bool {
        self == other
    }
}

impl Integer for u16 {
    ghost integer = { pos };

    ghost value_type = { UInt16 };

    ghost into_range = { λ z. residue_within z (2 ^ 16) (lit< tt) };

    ghost bits_range = { λ f h x y p q. unsigned_bits 16 f h x y p q };

    ghost complement_range = { λ x p. unsigned_complement w16 x p };

    fn zero() -> u16 {
        0
    }

    fn from_wide(wide: i128) -> Option<u16> {
        if wide < 0 || 65535 < wide {
            return None;
        }
        Some(wide as u16)
    }

    fn to_wide(self) -> i128 {
        self as i128
    }

    fn plus(self, other: u16) -> u16 {
        self.wrapping_add(other)
    }

    fn minus(self, other: u16) -> u16 {
        self.wrapping_sub(other)
    }

    fn times(self, other: u16) -> u16 {
        self.wrapping_mul(other)
    }

    fn bits_and(self, other: u16) -> u16 {
        self & other
    }

    fn bits_or(self, other: u16) -> u16 {
        self | other
    }

    fn bits_xor(self, other: u16) -> u16 {
        self ^ other
    }

    fn bits_not(self) -> u16 {
        !self
    }

    fn is_less(self, other: u16) -> bool {
        self < other
    }

    fn is_same(self, other: u16) -> bool {
        self == other
    }
}

impl Integer for u32 {
    ghost integer = { pos };

    ghost value_type = { UInt32 };

    ghost into_range = { λ z. residue_within z (2 ^ 32) (lit< tt) };

    ghost bits_range = { λ f h x y p q. unsigned_bits 32 f h x y p q };

    ghost complement_range = { λ x p. unsigned_complement w32 x p };

    fn zero() -> u32 {
        0
    }

    fn from_wide(wide: i128) -> Option<u32> {
        if wide < 0 || 4294967295 < wide {
            return None;
        }
        Some(wide as u32)
    }

    fn to_wide(self) -> i128 {
        self as i128
    }

    fn plus(self, other: u32) -> u32 {
        self.wrapping_add(other)
    }

    fn minus(self, other: u32) -> u32 {
        self.wrapping_sub(other)
    }

    fn times(self, other: u32) -> u32 {
        self.wrapping_mul(other)
    }

    fn bits_and(self, other: u32) -> u32 {
        self & other
    }

    fn bits_or(self, other: u32) -> u32 {
        self | other
    }

    fn bits_xor(self, other: u32) -> u32 {
        self ^ other
    }

    fn bits_not(self) -> u32 {
        !self
    }

    fn is_less(self, other: u32) -> bool {
        self < other
    }

    fn is_same(self, other: u32) -> bool {
        self == other
    }
}

impl Integer for u64 {
    ghost integer = { pos };

    ghost value_type = { UInt64 };

    ghost into_range = { λ z. residue_within z (2 ^ 64) (lit< tt) };

    ghost bits_range = { λ f h x y p q. unsigned_bits 64 f h x y p q };

    ghost complement_range = { λ x p. unsigned_complement w64 x p };

    fn zero() -> u64 {
        0
    }

    fn from_wide(wide: i128) -> Option<u64> {
        if wide < 0 || 18446744073709551615 < wide {
            return None;
        }
        Some(wide as u64)
    }

    fn to_wide(self) -> i128 {
        self as i128
    }

    fn plus(self, other: u64) -> u64 {
        self.wrapping_add(other)
    }

    fn minus(self, other: u64) -> u64 {
        self.wrapping_sub(other)
    }

    fn times(self, other: u64) -> u64 {
        self.wrapping_mul(other)
    }

    fn bits_and(self, other: u64) -> u64 {
        self & other
    }

    fn bits_or(self, other: u64) -> u64 {
        self | other
    }

    fn bits_xor(self, other: u64) -> u64 {
        self ^ other
    }

    fn bits_not(self) -> u64 {
        !self
    }

    fn is_less(self, other: u64) -> bool {
        self < other
    }

    fn is_same(self, other: u64) -> bool {
        self == other
    }
}
