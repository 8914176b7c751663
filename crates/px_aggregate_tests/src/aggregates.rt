//! Each aggregate on columns of no row, of one, and of lengths about those of one and two words of bits.

use crate::aggregate_calls::Call::{self, All, Any, Count, First, Last, NullCount, Product, Sum};
use crate::aggregate_calls::gives;
use px_test_columns::{Run, Scalar};
use px_types::ValueType::{
    Boolean, Int8, Int16, Int32, Int64, Null, String, UInt8, UInt16, UInt32, UInt64,
};

/// A row decides in the last word and at both ends; nulls leave it open unless they are ignored; no row is true,
/// and all of none are.
const TRUTH: [(Call, Run<'static>, Scalar); 19] = [
    (Any(false), (Boolean, 0, None, &[]), (Boolean, Some(0))),
    (All(false), (Boolean, 0, None, &[]), (Boolean, Some(1))),
    (Any(false), (Boolean, 1, Some(1), &[]), (Boolean, Some(1))),
    (Any(false), (Boolean, 1, None, &[]), (Boolean, None)),
    (All(false), (Boolean, 1, None, &[]), (Boolean, None)),
    (Any(true), (Boolean, 1, None, &[]), (Boolean, Some(0))),
    (All(true), (Boolean, 65, None, &[]), (Boolean, Some(1))),
    (
        Any(false),
        (Boolean, 2, None, &[(1, Some(0))]),
        (Boolean, None),
    ),
    (
        Any(true),
        (Boolean, 2, None, &[(1, Some(0))]),
        (Boolean, Some(0)),
    ),
    (
        All(true),
        (Boolean, 2, None, &[(1, Some(0))]),
        (Boolean, Some(0)),
    ),
    (
        All(false),
        (Boolean, 2, None, &[(1, Some(0))]),
        (Boolean, Some(0)),
    ),
    (
        Any(false),
        (Boolean, 63, Some(0), &[(62, Some(1))]),
        (Boolean, Some(1)),
    ),
    (
        Any(false),
        (Boolean, 64, Some(0), &[(0, None), (63, Some(1))]),
        (Boolean, Some(1)),
    ),
    (
        Any(false),
        (Boolean, 65, Some(0), &[(64, Some(1))]),
        (Boolean, Some(1)),
    ),
    (
        Any(false),
        (Boolean, 129, Some(0), &[(128, None)]),
        (Boolean, None),
    ),
    (All(false), (Boolean, 64, Some(1), &[]), (Boolean, Some(1))),
    (
        All(false),
        (Boolean, 65, Some(1), &[(0, None)]),
        (Boolean, None),
    ),
    (
        All(true),
        (Boolean, 65, Some(1), &[(64, None)]),
        (Boolean, Some(1)),
    ),
    (
        All(false),
        (Boolean, 129, Some(1), &[(0, None), (128, Some(0))]),
        (Boolean, Some(0)),
    ),
];

#[test]
fn booleans_are_decided_by_any_row(rt: HostRuntime) {
    for (call, run, want) in TRUTH {
        assert!(rt; gives(rt.alloc(), call, run, want));
    }
}

/// Rows are counted with their nulls and without them, of each type of column.
const COUNTS: [(Call, Run<'static>, Scalar); 9] = [
    (
        Count(false),
        (Int8, 4, Some(1), &[(0, Some(3)), (1, None)]),
        (UInt32, Some(3)),
    ),
    (
        Count(true),
        (Int8, 4, Some(1), &[(0, Some(3)), (1, None)]),
        (UInt32, Some(4)),
    ),
    (
        NullCount,
        (Int8, 4, Some(1), &[(0, Some(3)), (1, None)]),
        (UInt32, Some(1)),
    ),
    (NullCount, (Null, 65, None, &[]), (UInt32, Some(65))),
    (Count(false), (Null, 65, None, &[]), (UInt32, Some(0))),
    (
        Count(false),
        (String, 3, Some(4), &[(2, None)]),
        (UInt32, Some(2)),
    ),
    (
        NullCount,
        (Boolean, 129, Some(1), &[(0, None), (128, None)]),
        (UInt32, Some(2)),
    ),
    (
        Count(false),
        (UInt64, 64, Some(0), &[(63, None)]),
        (UInt32, Some(63)),
    ),
    (Count(true), (Int32, 0, None, &[]), (UInt32, Some(0))),
];

#[test]
fn rows_and_nulls_are_counted(rt: HostRuntime) {
    for (call, run, want) in COUNTS {
        assert!(rt; gives(rt.alloc(), call, run, want));
    }
}

/// Sums skip nulls, count each true as 1, and are 0 of nothing.
const SUMS: [(Run<'static>, Scalar); 10] = [
    (
        (Int8, 4, Some(1), &[(0, Some(3)), (1, None)]),
        (Int64, Some(5)),
    ),
    ((Int32, 0, None, &[]), (Int32, Some(0))),
    ((Int32, 1, None, &[]), (Int32, Some(0))),
    ((Int32, 63, Some(2), &[]), (Int32, Some(126))),
    ((Int32, 64, Some(2), &[]), (Int32, Some(128))),
    ((Int32, 65, Some(2), &[(64, Some(9))]), (Int32, Some(137))),
    (
        (UInt16, 129, Some(1), &[(0, None), (128, None)]),
        (Int64, Some(127)),
    ),
    (
        (
            UInt64,
            129,
            Some(1),
            &[(63, None), (64, None), (128, Some(5))],
        ),
        (UInt64, Some(131)),
    ),
    (
        (Boolean, 129, Some(1), &[(0, None), (128, Some(0))]),
        (UInt32, Some(127)),
    ),
    ((Boolean, 0, None, &[]), (UInt32, Some(0))),
];

/// Twice the greatest value of each integer type, and twice the least of each signed one.
const WRAPPED_SUMS: [(Run<'static>, Scalar); 12] = [
    ((Int8, 2, Some(127), &[]), (Int64, Some(254))),
    ((Int16, 2, Some(32767), &[]), (Int64, Some(65534))),
    ((Int32, 2, Some(2147483647), &[]), (Int32, Some(-2))),
    (
        (Int64, 2, Some(9223372036854775807), &[]),
        (Int64, Some(-2)),
    ),
    ((UInt8, 2, Some(255), &[]), (Int64, Some(510))),
    ((UInt16, 2, Some(65535), &[]), (Int64, Some(131070))),
    (
        (UInt32, 2, Some(4294967295), &[]),
        (UInt32, Some(4294967294)),
    ),
    (
        (UInt64, 2, Some(18446744073709551615), &[]),
        (UInt64, Some(18446744073709551614)),
    ),
    ((Int8, 2, Some(-128), &[]), (Int64, Some(-256))),
    ((Int16, 2, Some(-32768), &[]), (Int64, Some(-65536))),
    ((Int32, 2, Some(-2147483648), &[]), (Int32, Some(0))),
    (
        (Int64, 2, Some(-9223372036854775808), &[]),
        (Int64, Some(0)),
    ),
];

#[test]
fn sums_skip_nulls_and_wrap(rt: HostRuntime) {
    for (run, want) in SUMS {
        assert!(rt; gives(rt.alloc(), Sum, run, want));
    }
    for (run, want) in WRAPPED_SUMS {
        assert!(rt; gives(rt.alloc(), Sum, run, want));
    }
}

/// Products skip nulls, wrap in 64 bits, and are 1 of nothing.
const PRODUCTS: [(Run<'static>, Scalar); 10] = [
    (
        (Int8, 4, Some(1), &[(0, Some(3)), (1, None)]),
        (Int64, Some(3)),
    ),
    ((Int8, 0, None, &[]), (Int64, Some(1))),
    ((UInt64, 1, None, &[]), (UInt64, Some(1))),
    ((Int8, 3, Some(-128), &[]), (Int64, Some(-2097152))),
    (
        (Int32, 2, Some(2147483647), &[]),
        (Int64, Some(4611686014132420609)),
    ),
    (
        (UInt32, 2, Some(4294967295), &[]),
        (Int64, Some(-8589934591)),
    ),
    (
        (UInt64, 2, Some(18446744073709551615), &[]),
        (UInt64, Some(1)),
    ),
    (
        (Int64, 2, Some(-9223372036854775808), &[(1, Some(-1))]),
        (Int64, Some(-9223372036854775808)),
    ),
    (
        (Int16, 65, Some(1), &[(0, None), (64, Some(-7))]),
        (Int64, Some(-7)),
    ),
    (
        (UInt8, 129, Some(1), &[(64, Some(255)), (128, Some(2))]),
        (Int64, Some(510)),
    ),
];

#[test]
fn products_skip_nulls_and_wrap(rt: HostRuntime) {
    for (run, want) in PRODUCTS {
        assert!(rt; gives(rt.alloc(), Product, run, want));
    }
}

/// The rows at both ends, of each type, null where they are null and where there are none.
const ENDS: [(Call, Run<'static>, Scalar); 14] = [
    (
        First,
        (Int8, 4, Some(1), &[(0, Some(3)), (1, None)]),
        (Int8, Some(3)),
    ),
    (
        Last,
        (Int8, 4, Some(1), &[(0, Some(3)), (1, None)]),
        (Int8, Some(1)),
    ),
    (First, (Int16, 0, None, &[]), (Int16, None)),
    (Last, (Int32, 0, None, &[]), (Int32, None)),
    (First, (Int64, 65, Some(7), &[(0, None)]), (Int64, None)),
    (Last, (UInt8, 65, Some(7), &[(64, None)]), (UInt8, None)),
    (
        Last,
        (UInt16, 129, Some(7), &[(128, Some(65535))]),
        (UInt16, Some(65535)),
    ),
    (
        First,
        (UInt32, 64, Some(7), &[(0, Some(4294967295))]),
        (UInt32, Some(4294967295)),
    ),
    (
        Last,
        (UInt64, 1, Some(18446744073709551615), &[]),
        (UInt64, Some(18446744073709551615)),
    ),
    (
        First,
        (Boolean, 63, Some(0), &[(0, Some(1))]),
        (Boolean, Some(1)),
    ),
    (Last, (Boolean, 0, None, &[]), (Boolean, None)),
    (First, (String, 2, None, &[(0, Some(4))]), (String, Some(4))),
    (Last, (String, 0, None, &[]), (String, None)),
    (Last, (Null, 3, None, &[]), (Null, None)),
];

#[test]
fn ends_are_the_first_row_and_the_last(rt: HostRuntime) {
    for (call, run, want) in ENDS {
        assert!(rt; gives(rt.alloc(), call, run, want));
    }
}
