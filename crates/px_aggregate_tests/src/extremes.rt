//! The least and the greatest value and the bits of all, on columns of no row, of one, and of lengths about those of
//! one and two words of bits.

use crate::extreme_calls::Call::{self, ArgMax, ArgMin, Bits, Max, Min};
use crate::extreme_calls::gives;
use px_test_columns::{Run, Scalar};
use px_types::BitwiseFunction::{And, Or, Xor};
use px_types::ValueType::{
    Boolean, Int8, Int16, Int32, Int64, Null, String, UInt8, UInt16, UInt32, UInt64,
};

/// The ends of each type, equal values, of which the first counts, and no value.
const INTEGERS: [(Call, Run<'static>, Scalar); 25] = [
    (
        Min,
        (Int8, 4, Some(1), &[(0, Some(3)), (1, None)]),
        (Int8, Some(1)),
    ),
    (
        Max,
        (Int8, 4, Some(1), &[(0, Some(3)), (1, None)]),
        (Int8, Some(3)),
    ),
    (
        ArgMin,
        (Int8, 4, Some(1), &[(0, Some(3)), (1, None)]),
        (UInt32, Some(2)),
    ),
    (
        ArgMax,
        (Int8, 4, Some(1), &[(0, Some(3)), (1, None)]),
        (UInt32, Some(0)),
    ),
    (
        Min,
        (Int8, 63, Some(0), &[(0, Some(127)), (62, Some(-128))]),
        (Int8, Some(-128)),
    ),
    (
        Max,
        (Int8, 63, Some(0), &[(0, Some(127)), (62, Some(-128))]),
        (Int8, Some(127)),
    ),
    (
        ArgMin,
        (Int8, 63, Some(0), &[(0, Some(127)), (62, Some(-128))]),
        (UInt32, Some(62)),
    ),
    (
        ArgMax,
        (Int8, 63, Some(0), &[(0, Some(127)), (62, Some(-128))]),
        (UInt32, Some(0)),
    ),
    (
        Min,
        (
            Int16,
            64,
            Some(0),
            &[(0, None), (1, Some(32767)), (63, Some(-32768))],
        ),
        (Int16, Some(-32768)),
    ),
    (
        ArgMax,
        (
            Int16,
            64,
            Some(0),
            &[(0, None), (1, Some(32767)), (63, Some(-32768))],
        ),
        (UInt32, Some(1)),
    ),
    (
        Max,
        (Int32, 65, Some(-2147483648), &[(64, Some(2147483647))]),
        (Int32, Some(2147483647)),
    ),
    (
        ArgMin,
        (Int32, 65, Some(2147483647), &[(64, Some(-2147483648))]),
        (UInt32, Some(64)),
    ),
    (
        Min,
        (
            Int64,
            129,
            Some(9223372036854775807),
            &[(128, Some(-9223372036854775808))],
        ),
        (Int64, Some(-9223372036854775808)),
    ),
    (
        ArgMax,
        (
            Int64,
            129,
            Some(-9223372036854775808),
            &[(127, Some(9223372036854775807))],
        ),
        (UInt32, Some(127)),
    ),
    (
        Min,
        (UInt8, 129, Some(255), &[(128, Some(0))]),
        (UInt8, Some(0)),
    ),
    (
        Max,
        (UInt16, 65, Some(0), &[(0, Some(65535))]),
        (UInt16, Some(65535)),
    ),
    (
        ArgMin,
        (UInt32, 64, Some(4294967295), &[(63, Some(0))]),
        (UInt32, Some(63)),
    ),
    (
        Max,
        (UInt64, 63, Some(0), &[(62, Some(18446744073709551615))]),
        (UInt64, Some(18446744073709551615)),
    ),
    (
        ArgMin,
        (Int32, 129, Some(7), &[(64, Some(1)), (128, Some(1))]),
        (UInt32, Some(64)),
    ),
    (
        ArgMax,
        (UInt64, 129, Some(7), &[(0, None)]),
        (UInt32, Some(1)),
    ),
    (Min, (Int16, 0, None, &[]), (Int16, None)),
    (ArgMax, (Int16, 0, None, &[]), (UInt32, None)),
    (Max, (UInt8, 65, None, &[]), (UInt8, None)),
    (ArgMin, (UInt8, 65, None, &[]), (UInt32, None)),
    (Min, (UInt32, 1, Some(5), &[]), (UInt32, Some(5))),
];

#[test]
fn integers_have_ends(rt: HostRuntime) {
    for (call, run, want) in INTEGERS {
        assert!(rt; gives(rt.alloc(), call, run, want));
    }
}

/// False is below true, strings go by their bytes, and nulls alone have no end.
const OTHERS: [(Call, Run<'static>, Scalar); 24] = [
    (
        Min,
        (Boolean, 129, Some(1), &[(0, None), (128, Some(0))]),
        (Boolean, Some(0)),
    ),
    (
        ArgMin,
        (Boolean, 129, Some(1), &[(0, None), (128, Some(0))]),
        (UInt32, Some(128)),
    ),
    (
        ArgMax,
        (Boolean, 129, Some(1), &[(0, None), (128, Some(0))]),
        (UInt32, Some(1)),
    ),
    (
        Max,
        (Boolean, 65, Some(0), &[(64, Some(1))]),
        (Boolean, Some(1)),
    ),
    (
        ArgMax,
        (Boolean, 65, Some(0), &[(64, Some(1))]),
        (UInt32, Some(64)),
    ),
    (Min, (Boolean, 64, Some(1), &[]), (Boolean, Some(1))),
    (Max, (Boolean, 63, Some(0), &[]), (Boolean, Some(0))),
    (Max, (Boolean, 2, None, &[(1, Some(0))]), (Boolean, Some(0))),
    (
        ArgMax,
        (Boolean, 2, None, &[(1, Some(0))]),
        (UInt32, Some(1)),
    ),
    (Min, (Boolean, 65, None, &[]), (Boolean, None)),
    (ArgMin, (Boolean, 0, None, &[]), (UInt32, None)),
    (Min, (Null, 3, None, &[]), (Null, None)),
    (ArgMax, (Null, 3, None, &[]), (UInt32, None)),
    (
        Min,
        (String, 3, Some(3), &[(0, Some(2)), (2, Some(1))]),
        (String, Some(1)),
    ),
    (
        Max,
        (String, 3, Some(3), &[(0, Some(2)), (2, Some(1))]),
        (String, Some(3)),
    ),
    (
        ArgMin,
        (String, 3, Some(3), &[(0, Some(2)), (2, Some(1))]),
        (UInt32, Some(2)),
    ),
    (
        ArgMax,
        (String, 3, Some(3), &[(0, Some(2)), (2, Some(1))]),
        (UInt32, Some(1)),
    ),
    (
        Min,
        (String, 65, Some(4), &[(64, Some(0))]),
        (String, Some(0)),
    ),
    (
        Max,
        (String, 2, Some(4), &[(0, Some(3))]),
        (String, Some(4)),
    ),
    (
        ArgMax,
        (String, 64, Some(3), &[(63, Some(4))]),
        (UInt32, Some(63)),
    ),
    (
        ArgMin,
        (String, 129, Some(2), &[(0, None)]),
        (UInt32, Some(1)),
    ),
    (Max, (String, 2, None, &[]), (String, None)),
    (ArgMin, (String, 0, None, &[]), (UInt32, None)),
    (Max, (String, 2, Some(1), &[(1, None)]), (String, Some(1))),
];

#[test]
fn booleans_and_strings_have_ends(rt: HostRuntime) {
    for (call, run, want) in OTHERS {
        assert!(rt; gives(rt.alloc(), call, run, want));
    }
}

/// Nulls are skipped, a sign is a bit, and nothing has no bits.
const BITS: [(Call, Run<'static>, Scalar); 25] = [
    (
        Bits(And),
        (Int8, 4, Some(1), &[(0, Some(3)), (1, None)]),
        (Int8, Some(1)),
    ),
    (
        Bits(Or),
        (Int8, 4, Some(1), &[(0, Some(3)), (1, None)]),
        (Int8, Some(3)),
    ),
    (
        Bits(Xor),
        (Int8, 4, Some(1), &[(0, Some(3)), (1, None)]),
        (Int8, Some(3)),
    ),
    (
        Bits(And),
        (UInt8, 129, Some(255), &[(0, None), (128, Some(15))]),
        (UInt8, Some(15)),
    ),
    (
        Bits(Or),
        (UInt64, 65, Some(1), &[(64, Some(9223372036854775808))]),
        (UInt64, Some(9223372036854775809)),
    ),
    (Bits(Xor), (Int16, 64, Some(-1), &[]), (Int16, Some(0))),
    (Bits(Xor), (Int16, 65, Some(-1), &[]), (Int16, Some(-1))),
    (
        Bits(And),
        (Int32, 2, Some(-2147483648), &[(1, Some(-1))]),
        (Int32, Some(-2147483648)),
    ),
    (
        Bits(Or),
        (
            Int64,
            2,
            Some(-9223372036854775808),
            &[(1, Some(9223372036854775807))],
        ),
        (Int64, Some(-1)),
    ),
    (
        Bits(Xor),
        (UInt16, 63, Some(5), &[(62, None)]),
        (UInt16, Some(0)),
    ),
    (
        Bits(Xor),
        (UInt32, 1, Some(4294967295), &[]),
        (UInt32, Some(4294967295)),
    ),
    (Bits(And), (Int8, 0, None, &[]), (Int8, None)),
    (Bits(Or), (UInt32, 64, None, &[]), (UInt32, None)),
    (Bits(Xor), (Int64, 1, None, &[]), (Int64, None)),
    (
        Bits(And),
        (Boolean, 65, Some(1), &[(0, None)]),
        (Boolean, Some(1)),
    ),
    (
        Bits(And),
        (Boolean, 65, Some(1), &[(64, Some(0))]),
        (Boolean, Some(0)),
    ),
    (Bits(And), (Boolean, 0, None, &[]), (Boolean, None)),
    (
        Bits(Or),
        (Boolean, 129, Some(0), &[(128, Some(1))]),
        (Boolean, Some(1)),
    ),
    (Bits(Or), (Boolean, 63, Some(0), &[]), (Boolean, Some(0))),
    (Bits(Or), (Boolean, 65, None, &[]), (Boolean, None)),
    (Bits(Xor), (Boolean, 64, Some(1), &[]), (Boolean, Some(0))),
    (Bits(Xor), (Boolean, 65, Some(1), &[]), (Boolean, Some(1))),
    (
        Bits(Xor),
        (Boolean, 129, Some(1), &[(0, None)]),
        (Boolean, Some(0)),
    ),
    (
        Bits(Xor),
        (Boolean, 2, None, &[(1, Some(0))]),
        (Boolean, Some(0)),
    ),
    (Bits(Xor), (Boolean, 1, None, &[]), (Boolean, None)),
];

#[test]
fn values_are_reduced_bit_by_bit(rt: HostRuntime) {
    for (call, run, want) in BITS {
        assert!(rt; gives(rt.alloc(), call, run, want));
    }
}
