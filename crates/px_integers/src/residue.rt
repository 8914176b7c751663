//! Residues of integers in the integer types.
ghost use Rattle.std.specs.Prelude.{◌≡◌, pos};
ghost use Rattle.px_types.specs.Integers.{into};

use crate::integer::Integer;

/// A number type that has, of each integer, just one number that is congruent to it modulo
/// 2^w, where w is the type's width.
pub trait Residue: Integer {
    /// That number.
    fn residue(wide: i128) -> Self
        ensures { Self.integer result ≡ into Self.value_type wide };
}

impl Residue for u8 {
    fn residue(wide: i128) -> u8 {
        wide.rem_euclid(1 << 8) as u8
    }
}

impl Residue for u16 {
    fn residue(wide: i128) -> u16 {
        wide.rem_euclid(1 << 16) as u16
    }
}

impl Residue for u32 {
    fn residue(wide: i128) -> u32 {
        wide.rem_euclid(1 << 32) as u32
    }
}

impl Residue for u64 {
    fn residue(wide: i128) -> u64 {
        wide.rem_euclid(1 << 64) as u64
    }
}

impl Residue for i8 {
    fn residue(wide: i128) -> i8 {
        u8::residue(wide).cast_signed()
    }
}

impl Residue for i16 {
    fn residue(wide: i128) -> i16 {
        u16::residue(wide).cast_signed()
    }
}

impl Residue for i32 {
    fn residue(wide: i128) -> i32 {
        u32::residue(wide).cast_signed()
    }
}

impl Residue for i64 {
    fn residue(wide: i128) -> i64 {
        u64::residue(wide).cast_signed()
    }
}
