//! Each elementwise kernel on short columns: at nulls, at the ends of types, at one row and at lengths that do
//! not broadcast.

use crate::elementwise_calls::{Call, clips, fills, gives, is_inside};
use px_test_columns::{Rows, Want};
use px_types::BitwiseFunction::{
    CountOnes, CountZeros, LeadingOnes, LeadingZeros, TrailingOnes, TrailingZeros,
};
use px_types::ClosedInterval;
use px_types::ValueType::{
    Boolean, Int8, Int16, Int32, Int64, Null, String, UInt8, UInt16, UInt32, UInt64,
};

/// The absolute value of the least number is itself; a sign is -1, 0 or 1; a count is of two's complement.
const SINGLES: [(Call, Rows<'static>, Rows<'static>); 22] = [
    (
        Call::Abs,
        (Int8, &[Some(-128), Some(-5), Some(0), None, Some(127)]),
        (Int8, &[Some(-128), Some(5), Some(0), None, Some(127)]),
    ),
    (
        Call::Abs,
        (Int16, &[Some(-32768), Some(-32767)]),
        (Int16, &[Some(-32768), Some(32767)]),
    ),
    (
        Call::Abs,
        (Int32, &[None, Some(-2147483648), Some(-1)]),
        (Int32, &[None, Some(-2147483648), Some(1)]),
    ),
    (
        Call::Abs,
        (
            Int64,
            &[Some(-9223372036854775808), Some(-9223372036854775807)],
        ),
        (
            Int64,
            &[Some(-9223372036854775808), Some(9223372036854775807)],
        ),
    ),
    (
        Call::Abs,
        (UInt8, &[Some(0), Some(255), None]),
        (UInt8, &[Some(0), Some(255), None]),
    ),
    (
        Call::Abs,
        (UInt64, &[Some(18446744073709551615)]),
        (UInt64, &[Some(18446744073709551615)]),
    ),
    (Call::Abs, (Int32, &[]), (Int32, &[])),
    (
        Call::Sign,
        (Int64, &[Some(-5), Some(0), None]),
        (Int64, &[Some(-1), Some(0), None]),
    ),
    (
        Call::Sign,
        (Int8, &[Some(-128), Some(127), Some(1)]),
        (Int64, &[Some(-1), Some(1), Some(1)]),
    ),
    (
        Call::Sign,
        (UInt16, &[None, Some(65535), Some(0)]),
        (Int64, &[None, Some(1), Some(0)]),
    ),
    (Call::Sign, (UInt32, &[]), (Int64, &[])),
    (
        Call::Count(CountOnes),
        (Int8, &[Some(-1), None, Some(0)]),
        (UInt32, &[Some(8), None, Some(0)]),
    ),
    (
        Call::Count(CountOnes),
        (UInt64, &[Some(18446744073709551615)]),
        (UInt32, &[Some(64)]),
    ),
    (
        Call::Count(CountZeros),
        (Int16, &[Some(0), Some(-32768)]),
        (UInt32, &[Some(16), Some(15)]),
    ),
    (
        Call::Count(LeadingZeros),
        (UInt8, &[Some(1), Some(0)]),
        (UInt32, &[Some(7), Some(8)]),
    ),
    (
        Call::Count(LeadingOnes),
        (Int8, &[Some(-64), Some(127)]),
        (UInt32, &[Some(2), Some(0)]),
    ),
    (
        Call::Count(TrailingZeros),
        (Int32, &[Some(8), Some(0)]),
        (UInt32, &[Some(3), Some(32)]),
    ),
    (
        Call::Count(TrailingOnes),
        (UInt32, &[Some(7), Some(6)]),
        (UInt32, &[Some(3), Some(0)]),
    ),
    (
        Call::Count(TrailingOnes),
        (Int64, &[Some(-1)]),
        (UInt32, &[Some(64)]),
    ),
    (
        Call::Count(LeadingZeros),
        (UInt16, &[Some(255)]),
        (UInt32, &[Some(8)]),
    ),
    (
        Call::Count(CountOnes),
        (Boolean, &[Some(1), None, Some(0)]),
        (UInt32, &[Some(1), None, Some(0)]),
    ),
    (
        Call::Count(LeadingZeros),
        (Boolean, &[Some(1), None, Some(0)]),
        (UInt32, &[Some(0), None, Some(1)]),
    ),
];

#[test]
fn kernels_on_one_column(rt: HostRuntime) {
    let mut i = 0_u32;
    for (call, a, want) in SINGLES {
        assert!(rt; gives(rt.alloc(), call, a, Ok(want)), "single {i}");
        i = i.saturating_add(1);
    }
}

const X: Rows<'static> = (Int32, &[Some(1), None, Some(9)]);

/// A null takes the other row, also on the left of more rows; lengths that do not broadcast are refused.
const FILLS: [(Rows<'static>, Rows<'static>, Want<'static>); 9] = [
    (
        X,
        (Int32, &[Some(5)]),
        Ok((Int32, &[Some(1), Some(5), Some(9)])),
    ),
    (
        X,
        (Int32, &[None, Some(6), None]),
        Ok((Int32, &[Some(1), Some(6), Some(9)])),
    ),
    (X, (Int32, &[None]), Ok(X)),
    ((Int32, &[None]), X, Ok(X)),
    ((Int32, &[]), (Int32, &[Some(5)]), Ok((Int32, &[]))),
    (
        (String, &[None, Some(1), None]),
        (String, &[Some(4)]),
        Ok((String, &[Some(4), Some(1), Some(4)])),
    ),
    (
        (Boolean, &[None, Some(0)]),
        (Boolean, &[Some(1)]),
        Ok((Boolean, &[Some(1), Some(0)])),
    ),
    (
        (Null, &[None]),
        (Null, &[None, None]),
        Ok((Null, &[None, None])),
    ),
    (X, (Int32, &[Some(1), Some(2)]), Err("ShapeMismatch")),
];

#[test]
fn nulls_are_filled(rt: HostRuntime) {
    let mut i = 0_u32;
    for (a, fill, want) in FILLS {
        assert!(rt; fills(rt.alloc(), a, fill, want), "fill {i}");
        i = i.saturating_add(1);
    }
}

const NULLS: [Option<i128>; 129] = [None; 129];

const SEVENS: [Option<i128>; 129] = [Some(7); 129];

/// No rows, one row, and about as many as the bits of one word and of two.
const LENGTHS: [usize; 6] = [0, 1, 63, 64, 65, 129];

#[test]
fn nulls_of_any_length_are_filled(rt: HostRuntime) {
    for len in LENGTHS {
        let want: Rows = (UInt8, &SEVENS[..len]);
        assert!(rt;
            fills(
                rt.alloc(),
                (UInt8, &NULLS[..len]),
                (UInt8, &[Some(7)]),
                Ok(want)
            ),
            "{len}"
        );
    }
}

const STEPS: Rows<'static> = (Int8, &[Some(1), Some(2), Some(5), Some(8), Some(9)]);

const TWO: Rows<'static> = (Int8, &[Some(2)]);

const EIGHT: Rows<'static> = (Int8, &[Some(8)]);

const FIVE: Rows<'static> = (Int8, &[Some(5)]);

const MISSING: Rows<'static> = (Int8, &[None]);

/// An interval, and the Booleans of each value.
type Inside = (
    Rows<'static>,
    Rows<'static>,
    Rows<'static>,
    ClosedInterval,
    Want<'static>,
);

/// Each way to close an interval; a null bound decides nothing, but the other may; lengths that do not
/// broadcast are refused.
const INSIDE: [Inside; 11] = [
    (
        STEPS,
        TWO,
        EIGHT,
        ClosedInterval::Both,
        Ok((Boolean, &[Some(0), Some(1), Some(1), Some(1), Some(0)])),
    ),
    (
        STEPS,
        TWO,
        EIGHT,
        ClosedInterval::Left,
        Ok((Boolean, &[Some(0), Some(1), Some(1), Some(0), Some(0)])),
    ),
    (
        STEPS,
        TWO,
        EIGHT,
        ClosedInterval::Right,
        Ok((Boolean, &[Some(0), Some(0), Some(1), Some(1), Some(0)])),
    ),
    (
        STEPS,
        TWO,
        EIGHT,
        ClosedInterval::None,
        Ok((Boolean, &[Some(0), Some(0), Some(1), Some(0), Some(0)])),
    ),
    (
        FIVE,
        MISSING,
        (Int8, &[Some(3)]),
        ClosedInterval::Both,
        Ok((Boolean, &[Some(0)])),
    ),
    (
        FIVE,
        MISSING,
        (Int8, &[Some(9)]),
        ClosedInterval::Both,
        Ok((Boolean, &[None])),
    ),
    (
        FIVE,
        EIGHT,
        MISSING,
        ClosedInterval::Both,
        Ok((Boolean, &[Some(0)])),
    ),
    (
        MISSING,
        TWO,
        EIGHT,
        ClosedInterval::Both,
        Ok((Boolean, &[None])),
    ),
    (
        FIVE,
        (Int8, &[Some(5), Some(6)]),
        EIGHT,
        ClosedInterval::Both,
        Ok((Boolean, &[Some(1), Some(0)])),
    ),
    (
        STEPS,
        (Int8, &[Some(2), Some(3)]),
        EIGHT,
        ClosedInterval::Both,
        Err("ShapeMismatch"),
    ),
    (
        STEPS,
        TWO,
        (Int8, &[]),
        ClosedInterval::Both,
        Err("ShapeMismatch"),
    ),
];

#[test]
fn values_inside_intervals(rt: HostRuntime) {
    let mut i = 0_u32;
    for (a, lower, upper, closed, want) in INSIDE {
        assert!(rt;
            is_inside(rt.alloc(), a, lower, upper, closed, want),
            "interval {i}"
        );
        i = i.saturating_add(1);
    }
}

/// A column and its bounds.
type Clip = (
    Rows<'static>,
    Option<Rows<'static>>,
    Option<Rows<'static>>,
    Want<'static>,
);

/// Both bounds, one, and none; a null bound does not bind; the upper bound is the last word; bounds of one
/// row and of more; strings; lengths that do not broadcast are refused.
const CLIPS: [Clip; 12] = [
    (
        X,
        Some((Int32, &[Some(2)])),
        Some((Int32, &[Some(8)])),
        Ok((Int32, &[Some(2), None, Some(8)])),
    ),
    (
        X,
        Some((Int32, &[Some(2)])),
        None,
        Ok((Int32, &[Some(2), None, Some(9)])),
    ),
    (
        X,
        None,
        Some((Int32, &[Some(8)])),
        Ok((Int32, &[Some(1), None, Some(8)])),
    ),
    (X, None, None, Ok(X)),
    (X, Some((Int32, &[None])), Some((Int32, &[None])), Ok(X)),
    (
        X,
        Some((Int32, &[Some(2), Some(2), None])),
        Some((Int32, &[None, Some(1), Some(3)])),
        Ok((Int32, &[Some(2), None, Some(3)])),
    ),
    (FIVE, Some(EIGHT), Some(TWO), Ok(TWO)),
    (
        FIVE,
        Some((Int8, &[Some(1), Some(6)])),
        None,
        Ok((Int8, &[Some(5), Some(6)])),
    ),
    (
        (String, &[Some(0), Some(2), Some(4)]),
        Some((String, &[Some(1)])),
        Some((String, &[Some(3)])),
        Ok((String, &[Some(1), Some(2), Some(3)])),
    ),
    ((Int8, &[]), Some(TWO), Some(EIGHT), Ok((Int8, &[]))),
    (
        STEPS,
        Some((Int8, &[Some(2), Some(3)])),
        Some(EIGHT),
        Err("ShapeMismatch"),
    ),
    (STEPS, Some(TWO), Some((Int8, &[])), Err("ShapeMismatch")),
];

#[test]
fn values_between_bounds(rt: HostRuntime) {
    let mut i = 0_u32;
    for (a, low, high, want) in CLIPS {
        assert!(rt; clips(rt.alloc(), a, low, high, want), "clip {i}");
        i = i.saturating_add(1);
    }
}
