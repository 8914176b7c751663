//! Each kernel across columns on short columns: at nulls, at one column and at one row, and at lengths that do not
//! broadcast.

use crate::horizontal_calls::{Across, goes_across};
use px_test_columns::{Rows, Want};
use px_types::ValueType::{Boolean, Int8, Int32, Null, String, UInt8, UInt32};

const X: Rows<'static> = (Int32, &[Some(1), None, Some(9)]);

const EIGHT: Rows<'static> = (Int8, &[Some(8)]);

const NULLS: [Option<i128>; 129] = [None; 129];

const SEVENS: [Option<i128>; 129] = [Some(7); 129];

/// No rows, one row, and about as many as the bits of one word and of two.
const LENGTHS: [usize; 6] = [0, 1, 63, 64, 65, 129];

const P: Rows<'static> = (Boolean, &[Some(1), None, Some(0)]);

const Q: Rows<'static> = (Boolean, &[None, None, Some(0)]);

const Y: Rows<'static> = (Int32, &[Some(5), Some(5), None]);

const Z: Rows<'static> = (Int32, &[None, Some(2), None]);

/// Kleene logic; Booleans are summed up as numbers, and sums wrap; the first value, the least and the
/// greatest, of strings too; one column, and one row beside more; lengths that do not broadcast are refused.
const ACROSS: [(Across, &[Rows<'static>], Want<'static>); 26] = [
    (
        Across::Any,
        &[P, Q],
        Ok((Boolean, &[Some(1), None, Some(0)])),
    ),
    (Across::All, &[P, Q], Ok((Boolean, &[None, None, Some(0)]))),
    (
        Across::Any,
        &[Q, (Boolean, &[Some(1)])],
        Ok((Boolean, &[Some(1), Some(1), Some(1)])),
    ),
    (Across::All, &[(Boolean, &[Some(1)]), P], Ok(P)),
    (Across::All, &[P], Ok(P)),
    (
        Across::Any,
        &[P, Q, (Boolean, &[None, Some(0)])],
        Err("ShapeMismatch"),
    ),
    (
        Across::Sum(true),
        &[P, Q],
        Ok((UInt32, &[Some(1), Some(0), Some(0)])),
    ),
    (
        Across::Sum(false),
        &[P, Q],
        Ok((UInt32, &[None, None, Some(0)])),
    ),
    (
        Across::Sum(true),
        &[P],
        Ok((UInt32, &[Some(1), Some(0), Some(0)])),
    ),
    (
        Across::Sum(false),
        &[P],
        Ok((UInt32, &[Some(1), None, Some(0)])),
    ),
    (
        Across::Sum(false),
        &[X, Y, Z],
        Ok((Int32, &[None, None, None])),
    ),
    (
        Across::Sum(true),
        &[X, Y, Z],
        Ok((Int32, &[Some(6), Some(7), Some(9)])),
    ),
    (
        Across::Sum(false),
        &[
            (Int8, &[Some(100)]),
            (Int8, &[Some(100), Some(-128)]),
            EIGHT,
        ],
        Ok((Int8, &[Some(-48), Some(-20)])),
    ),
    (
        Across::Sum(true),
        &[X, (Int32, &[Some(1), Some(2)])],
        Err("ShapeMismatch"),
    ),
    (
        Across::First,
        &[Z, Y, (Int32, &[Some(7)])],
        Ok((Int32, &[Some(5), Some(2), Some(7)])),
    ),
    (Across::First, &[Z], Ok(Z)),
    (
        Across::First,
        &[(Null, &[None]), (Null, &[None, None])],
        Ok((Null, &[None, None])),
    ),
    (
        Across::First,
        &[(String, &[None, Some(2)]), (String, &[Some(4)])],
        Ok((String, &[Some(4), Some(2)])),
    ),
    (Across::First, &[X, (Int32, &[])], Err("ShapeMismatch")),
    (
        Across::Min,
        &[X, Y],
        Ok((Int32, &[Some(1), Some(5), Some(9)])),
    ),
    (
        Across::Max,
        &[X, Y],
        Ok((Int32, &[Some(5), Some(5), Some(9)])),
    ),
    (
        Across::Max,
        &[Z, X, (Int32, &[Some(3)])],
        Ok((Int32, &[Some(3), Some(3), Some(9)])),
    ),
    (Across::Min, &[Z, Z], Ok(Z)),
    (
        Across::Min,
        &[(String, &[Some(2), None]), (String, &[Some(1), Some(3)])],
        Ok((String, &[Some(1), Some(3)])),
    ),
    (
        Across::Max,
        &[P, Q],
        Ok((Boolean, &[Some(1), None, Some(0)])),
    ),
    (
        Across::Max,
        &[X, (Int32, &[Some(1), Some(2)])],
        Err("ShapeMismatch"),
    ),
];

#[test]
fn kernels_across_columns(rt: HostRuntime) {
    let mut i = 0_u32;
    for (call, inputs, want) in ACROSS {
        assert!(rt; goes_across(rt.alloc(), call, inputs, want), "across {i}");
        i = i.saturating_add(1);
    }
}

#[test]
fn nulls_of_any_length_across(rt: HostRuntime) {
    for len in LENGTHS {
        let nulls: Rows = (UInt8, &NULLS[..len]);
        let sevens: Rows = (UInt8, &SEVENS[..len]);
        assert!(rt;
            goes_across(rt.alloc(), Across::Max, &[nulls, sevens], Ok(sevens)),
            "{len}"
        );
    }
}
