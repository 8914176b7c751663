//! Each kernel on short columns: at zero, at null, at lengths that do not broadcast, and on strings. The rows at
//! the ends of each integer type are documents of px_cases.

use crate::kernel_calls::{Call, gives};
use px_functions::EvaluatedBoolean::{self, IsNotNull, IsNull, Not};
use px_test_columns::{Rows, Want};
use px_types::CastOptions::{self, NonStrict, Overflowing, Strict};
use px_types::FusedOperator::{self, MultiplyAdd, MultiplySub, SubMultiply};
use px_types::Operator::{
    self, And, Eq, EqValidity, FloorDivide, Lt, LtEq, Modulus, Or, Plus, Xor,
};
use px_types::ValueType::{self, Boolean, Int8, Int32, Int64, Null, String, UInt8};

/// Dividends, and a divisor for each.
const A: Rows<'static> = (Int8, &[Some(-128), Some(7), None, Some(-7), Some(7)]);

const B: Rows<'static> = (Int8, &[Some(-1), Some(0), Some(1), Some(2), Some(-2)]);

/// A value and two nulls, and a null between two values.
const C: Rows<'static> = (Int8, &[Some(1), None, None]);

const D: Rows<'static> = (Int8, &[Some(1), None, Some(2)]);

const NULL: Rows<'static> = (Null, &[None]);

/// Division is floor division and are null at zero; comparisons see nulls; strings are compared by their bytes;
/// false is below true; lengths that do not broadcast are refused.
const PAIRS: [(Operator, Rows<'static>, Rows<'static>, Want<'static>); 10] = [
    (
        FloorDivide,
        A,
        B,
        Ok((Int8, &[Some(-128), None, None, Some(-4), Some(-4)])),
    ),
    (
        Modulus,
        A,
        B,
        Ok((Int8, &[Some(0), None, None, Some(1), Some(-1)])),
    ),
    (
        EqValidity,
        C,
        D,
        Ok((Boolean, &[Some(1), Some(1), Some(0)])),
    ),
    (LtEq, C, D, Ok((Boolean, &[Some(1), None, None]))),
    (Eq, NULL, NULL, Ok((Boolean, &[None]))),
    (EqValidity, NULL, NULL, Ok((Boolean, &[Some(1)]))),
    (
        Lt,
        (String, &[Some(1), None, Some(4)]),
        (String, &[Some(2), None, Some(3)]),
        Ok((Boolean, &[Some(1), None, Some(0)])),
    ),
    (
        Lt,
        (Boolean, &[Some(0), Some(1), None]),
        (Boolean, &[Some(1), Some(1), Some(1)]),
        Ok((Boolean, &[Some(1), Some(0), None])),
    ),
    (Lt, C, (Int8, &[None, None]), Err("ShapeMismatch")),
    (Plus, C, (Int8, &[None, None]), Err("ShapeMismatch")),
];

#[test]
fn pairs_of_columns_give_their_rows(rt: HostRuntime) {
    for (op, a, b, want) in PAIRS {
        assert!(rt; gives(rt.alloc(), Call::Pair(op), a, b, b, want), "{op}");
    }
}

/// A Boolean of each value, integers and strings with a null between.
const BOOLEANS: Rows<'static> = (Boolean, &[Some(1), None, Some(0)]);

const BYTES: Rows<'static> = (Int8, &[Some(100), None, Some(-128)]);

const STRINGS: Rows<'static> = (String, &[Some(4), None, Some(0)]);

const NULLS: Rows<'static> = (Null, &[None, None]);

/// One row goes with each row of the other, on the left and on the right; integers are taken bit by bit;
/// lengths that do not broadcast are refused.
const LOGIC: [(Operator, Rows<'static>, Rows<'static>, Want<'static>); 7] = [
    (
        And,
        BOOLEANS,
        (Boolean, &[None]),
        Ok((Boolean, &[None, None, Some(0)])),
    ),
    (
        And,
        (Boolean, &[None]),
        BOOLEANS,
        Ok((Boolean, &[None, None, Some(0)])),
    ),
    (Or, BOOLEANS, (Boolean, &[Some(0)]), Ok(BOOLEANS)),
    (
        And,
        BOOLEANS,
        (Boolean, &[Some(1), Some(0)]),
        Err("ShapeMismatch"),
    ),
    (Or, (Boolean, &[]), BOOLEANS, Err("ShapeMismatch")),
    (Xor, BYTES, (Int8, &[None, Some(0)]), Err("ShapeMismatch")),
    (
        Xor,
        BYTES,
        (Int8, &[Some(100)]),
        Ok((Int8, &[Some(0), None, Some(-28)])),
    ),
];

#[test]
fn logic_goes_row_by_row(rt: HostRuntime) {
    for (op, a, b, want) in LOGIC {
        assert!(rt; gives(rt.alloc(), Call::Pair(op), a, b, b, want), "{op}");
    }
}

/// Strings differ from nulls, and nulls are no values.
const PREDICATES: [(EvaluatedBoolean, Rows<'static>, Want<'static>); 4] = [
    (Not, BYTES, Ok((Int8, &[Some(-101), None, Some(127)]))),
    (Not, BOOLEANS, Ok((Boolean, &[Some(0), None, Some(1)]))),
    (IsNull, STRINGS, Ok((Boolean, &[Some(0), Some(1), Some(0)]))),
    (IsNotNull, NULLS, Ok((Boolean, &[Some(0), Some(0)]))),
];

#[test]
fn predicates_go_row_by_row(rt: HostRuntime) {
    for (function, a, want) in PREDICATES {
        assert!(rt; gives(rt.alloc(), Call::Test(function), a, a, a, want));
    }
}

#[test]
fn the_negation_of_the_least_is_itself(rt: HostRuntime) {
    let rows: Rows = (Int8, &[Some(-128), Some(0), None, Some(127)]);
    let want: Rows = (Int8, &[Some(-128), Some(0), None, Some(-127)]);
    assert!(rt; gives(rt.alloc(), Call::Negate, rows, rows, rows, Ok(want)));
}

const WIDE: Rows<'static> = (Int32, &[Some(300), None, Some(-1), Some(7)]);

const FLAGS: Rows<'static> = (Boolean, &[Some(1), None, Some(0)]);

const TEXTS: Rows<'static> = (String, &[Some(4), None, Some(0)]);

/// A number that the type lacks is refused, null, or its residue; Booleans are 1 and 0, and a number
/// is true where it is not 0; null has no value; a column of the type stays.
const CASTS: [(Rows<'static>, ValueType, CastOptions, Want<'static>); 11] = [
    (WIDE, UInt8, Strict, Err("InvalidCast")),
    (
        WIDE,
        UInt8,
        NonStrict,
        Ok((UInt8, &[None, None, None, Some(7)])),
    ),
    (
        WIDE,
        UInt8,
        Overflowing,
        Ok((UInt8, &[Some(44), None, Some(255), Some(7)])),
    ),
    (
        WIDE,
        Int64,
        Strict,
        Ok((Int64, &[Some(300), None, Some(-1), Some(7)])),
    ),
    (FLAGS, Int8, Strict, Ok((Int8, &[Some(1), None, Some(0)]))),
    (
        (Int8, &[Some(2), None, Some(0)]),
        Boolean,
        Strict,
        Ok(FLAGS),
    ),
    (FLAGS, Null, Strict, Err("InvalidCast")),
    (FLAGS, Null, NonStrict, Ok((Null, &[None, None, None]))),
    (NULL, Int64, Strict, Ok((Int64, &[None]))),
    (NULL, String, Strict, Ok((String, &[None]))),
    (TEXTS, String, Strict, Ok(TEXTS)),
];

#[test]
fn casts_keep_what_the_type_has(rt: HostRuntime) {
    let mut i = 0_u32;
    for (rows, to, options, want) in CASTS {
        let call = Call::Cast(to, options);
        assert!(rt; gives(rt.alloc(), call, rows, rows, rows, want), "cast {i}");
        i = i.saturating_add(1);
    }
}

const MASK: Rows<'static> = (Boolean, &[Some(1), None, Some(0)]);

const MANY: Rows<'static> = (Int8, &[Some(1), Some(2), Some(3)]);

/// A null mask selects the second, and one row goes with each row, a mask's too; strings, Booleans
/// and nulls are selected row by row; lengths that do not broadcast are refused.
const CHOICES: [(Rows<'static>, Rows<'static>, Rows<'static>, Want<'static>); 7] = [
    (
        MANY,
        (Int8, &[Some(9)]),
        MASK,
        Ok((Int8, &[Some(1), Some(9), Some(9)])),
    ),
    (
        (Int8, &[Some(9)]),
        MANY,
        MASK,
        Ok((Int8, &[Some(9), Some(2), Some(3)])),
    ),
    (C, MANY, (Boolean, &[Some(1)]), Ok(C)),
    (
        (String, &[Some(1), None, Some(2)]),
        (String, &[Some(3), None, Some(4)]),
        MASK,
        Ok((String, &[Some(1), None, Some(4)])),
    ),
    (
        MASK,
        (Boolean, &[Some(0)]),
        MASK,
        Ok((Boolean, &[Some(1), Some(0), Some(0)])),
    ),
    (
        (Null, &[None, None, None]),
        NULL,
        MASK,
        Ok((Null, &[None, None, None])),
    ),
    (C, D, (Boolean, &[Some(1), Some(1)]), Err("ShapeMismatch")),
];

#[test]
fn a_mask_selects_row_by_row(rt: HostRuntime) {
    let mut i = 0_u32;
    for (a, b, mask, want) in CHOICES {
        assert!(rt;
            gives(rt.alloc(), Call::Selection, a, b, mask, want),
            "choice {i}"
        );
        i = i.saturating_add(1);
    }
}

const TENS: Rows<'static> = (Int32, &[Some(10), None, Some(30)]);

const TWOS: Rows<'static> = (Int32, &[Some(2), Some(2), None]);

const ONE: Rows<'static> = (Int32, &[Some(3)]);

const TWO: Rows<'static> = (Int32, &[Some(3), Some(4)]);

/// A form.
type Fused = (
    FusedOperator,
    Rows<'static>,
    Rows<'static>,
    Rows<'static>,
    Want<'static>,
);

/// The one that is taken into the type, one row in each place, no rows, nulls, and lengths that do not
/// broadcast.
const FUSED: [Fused; 14] = [
    (
        MultiplyAdd,
        (Int8, &[Some(100)]),
        (Int8, &[Some(100)]),
        (Int8, &[Some(2)]),
        Ok((Int8, &[Some(44)])),
    ),
    (
        SubMultiply,
        (Int8, &[Some(-128)]),
        (Int8, &[Some(64)]),
        (Int8, &[Some(3)]),
        Ok((Int8, &[Some(-64)])),
    ),
    (
        MultiplySub,
        (Int8, &[Some(100)]),
        (Int8, &[Some(2)]),
        (Int8, &[Some(100)]),
        Ok((Int8, &[Some(100)])),
    ),
    (
        SubMultiply,
        (Int32, &[Some(10), None]),
        (Int32, &[Some(2), Some(2)]),
        ONE,
        Ok((Int32, &[Some(4), None])),
    ),
    (
        MultiplyAdd,
        TENS,
        TWOS,
        TENS,
        Ok((Int32, &[Some(30), None, None])),
    ),
    (
        SubMultiply,
        TENS,
        TENS,
        TWOS,
        Ok((Int32, &[Some(-10), None, None])),
    ),
    (
        MultiplySub,
        TENS,
        TWOS,
        TENS,
        Ok((Int32, &[Some(10), None, None])),
    ),
    (
        MultiplyAdd,
        ONE,
        TENS,
        TWOS,
        Ok((Int32, &[Some(23), None, None])),
    ),
    (
        MultiplyAdd,
        ONE,
        ONE,
        TWO,
        Ok((Int32, &[Some(12), Some(15)])),
    ),
    (MultiplySub, TWO, ONE, TWO, Ok((Int32, &[Some(6), Some(8)]))),
    (MultiplySub, ONE, TWO, ONE, Ok((Int32, &[Some(6), Some(9)]))),
    (
        MultiplyAdd,
        (Int32, &[]),
        (Int32, &[]),
        ONE,
        Ok((Int32, &[])),
    ),
    (SubMultiply, TWO, TENS, ONE, Err("ShapeMismatch")),
    (MultiplySub, TENS, TENS, TWO, Err("ShapeMismatch")),
];

#[test]
fn a_product_and_a_sum_or_a_difference(rt: HostRuntime) {
    let mut i = 0_u32;
    for (op, a, b, c, want) in FUSED {
        assert!(rt;
            gives(rt.alloc(), Call::Fused(op), a, b, c, want),
            "form {i}"
        );
        i = i.saturating_add(1);
    }
}
