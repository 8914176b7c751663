//! Each kernel on short columns: nulls at the ends, no rows, one row, each end of the bounds, each form of
//! buffer; and on columns of one or two words of bits, of one row more and of one less.

use crate::selection_calls::{Call, gives};
use crate::selection_lengths::{LongCall, gives_rows};
use px_test_columns::{Rows, Want};
use px_types::ValueType::{Boolean, Int8, Int32, Int64, Null, String, UInt8, UInt64};

/// A column of each form, with nulls at the ends.
const NUMBERS: Rows<'static> = (Int8, &[Some(3), None, Some(1), Some(1)]);

const BOOLEANS: Rows<'static> = (Boolean, &[None, Some(1), Some(0), None]);

const STRINGS: Rows<'static> = (String, &[None, Some(4), Some(0), Some(2)]);

const NULLS: Rows<'static> = (Null, &[None, None]);

const EMPTY: Rows<'static> = (Int32, &[]);

/// The rows 1, 2, 3.
const A: Rows<'static> = (Int32, &[Some(1), Some(2), Some(3)]);

const REVERSED: [(Rows<'static>, Rows<'static>); 5] = [
    (NUMBERS, (Int8, &[Some(1), Some(1), None, Some(3)])),
    (BOOLEANS, (Boolean, &[None, Some(0), Some(1), None])),
    (STRINGS, (String, &[Some(2), Some(0), Some(4), None])),
    (NULLS, NULLS),
    (EMPTY, EMPTY),
];

#[test]
fn reverse_goes_from_the_last_row_to_the_first(rt: HostRuntime) {
    for (a, want) in REVERSED {
        assert!(rt; gives(rt.alloc(), Call::Reverse, a, Ok(want)));
    }
}

const WITHOUT_NULLS: [(Rows<'static>, Rows<'static>); 5] = [
    (NUMBERS, (Int8, &[Some(3), Some(1), Some(1)])),
    (BOOLEANS, (Boolean, &[Some(1), Some(0)])),
    (STRINGS, (String, &[Some(4), Some(0), Some(2)])),
    (NULLS, (Null, &[])),
    (EMPTY, EMPTY),
];

#[test]
fn drop_nulls_keeps_the_other_rows_in_order(rt: HostRuntime) {
    for (a, want) in WITHOUT_NULLS {
        assert!(rt; gives(rt.alloc(), Call::DropNulls, a, Ok(want)));
    }
}

const APPENDED: [(Rows<'static>, Rows<'static>, Rows<'static>); 5] = [
    ((Int32, &[Some(1)]), (Int32, &[Some(2), Some(3)]), A),
    (
        (Boolean, &[None, Some(1)]),
        (Boolean, &[Some(0), None]),
        BOOLEANS,
    ),
    (
        (String, &[None, Some(4)]),
        (String, &[Some(0), Some(2)]),
        STRINGS,
    ),
    ((Null, &[None]), (Null, &[None]), NULLS),
    (EMPTY, A, A),
];

#[test]
fn append_puts_the_second_column_after_the_first(rt: HostRuntime) {
    for (a, b, want) in APPENDED {
        assert!(rt; gives(rt.alloc(), Call::Append(b), a, Ok(want)));
    }
}

/// A null in the mask keeps no row; one row goes with each row of the other side.
const FILTERED: [(Rows<'static>, Rows<'static>, Want<'static>); 9] = [
    (
        A,
        (Boolean, &[Some(1), None, Some(1)]),
        Ok((Int32, &[Some(1), Some(3)])),
    ),
    (
        BOOLEANS,
        (Boolean, &[Some(1), Some(0), Some(1), None]),
        Ok((Boolean, &[None, Some(0)])),
    ),
    (
        STRINGS,
        (Boolean, &[Some(1), Some(1), Some(0), Some(0)]),
        Ok((String, &[None, Some(4)])),
    ),
    (A, (Boolean, &[Some(1)]), Ok(A)),
    (A, (Boolean, &[Some(0)]), Ok(EMPTY)),
    (A, (Boolean, &[None]), Ok(EMPTY)),
    (
        (Int32, &[Some(7)]),
        (Boolean, &[Some(1), None, Some(1), Some(0)]),
        Ok((Int32, &[Some(7), Some(7)])),
    ),
    (NULLS, (Boolean, &[Some(1), Some(0)]), Ok((Null, &[None]))),
    (A, (Boolean, &[Some(1), Some(0)]), Err("ShapeMismatch")),
];

#[test]
fn filter_keeps_the_rows_where_the_mask_is_true(rt: HostRuntime) {
    for (a, by, want) in FILTERED {
        assert!(rt; gives(rt.alloc(), Call::Filter(by), a, want));
    }
}

/// A negative index counts from the end, and a null gives a null.
const GATHERED: [(Rows<'static>, Rows<'static>, bool, Want<'static>); 10] = [
    (
        A,
        (Int64, &[Some(-1), Some(0), None]),
        false,
        Ok((Int32, &[Some(3), Some(1), None])),
    ),
    (A, (Int64, &[Some(3)]), true, Err("OutOfBounds")),
    (A, (Int64, &[Some(-3)]), true, Ok((Int32, &[Some(1)]))),
    (A, (Int64, &[Some(-4)]), false, Err("OutOfBounds")),
    (A, (UInt64, &[Some(2)]), false, Ok((Int32, &[Some(3)]))),
    (
        A,
        (UInt64, &[Some(18446744073709551615)]),
        false,
        Err("OutOfBounds"),
    ),
    (A, (Int8, &[Some(0), Some(9)]), true, Err("ShapeMismatch")),
    (A, (Int8, &[]), false, Ok(EMPTY)),
    (EMPTY, (UInt8, &[None]), false, Ok((Int32, &[None]))),
    (
        STRINGS,
        (Int8, &[Some(1), Some(0), Some(-1), Some(1)]),
        false,
        Ok((String, &[Some(4), None, Some(2), Some(4)])),
    ),
];

#[test]
fn gather_gives_the_row_at_each_index(rt: HostRuntime) {
    for (a, indices, is_scalar, want) in GATHERED {
        assert!(rt; gives(rt.alloc(), Call::Gather(indices, is_scalar), a, want));
    }
}

/// The end is the start and the length, and both are brought to the rows that there are.
const SLICED: [(i128, i128, Want<'static>); 9] = [
    (-2, 1, Ok((Int32, &[Some(2)]))),
    (-10, 10, Ok(A)),
    (-10, 7, Ok(EMPTY)),
    (-10, 8, Ok((Int32, &[Some(1)]))),
    (-5, 3, Ok((Int32, &[Some(1)]))),
    (1, 9223372036854775807, Ok((Int32, &[Some(2), Some(3)]))),
    (9223372036854775807, 1, Ok(EMPTY)),
    (-9223372036854775808, 1, Ok(EMPTY)),
    (0, -1, Err("OutOfBounds")),
];

#[test]
fn slice_gives_a_range_of_rows(rt: HostRuntime) {
    for (offset, length, want) in SLICED {
        let offset: [Option<i128>; 1] = [Some(offset)];
        let length: [Option<i128>; 1] = [Some(length)];
        assert!(rt;
            gives(
                rt.alloc(),
                Call::Slice((Int64, &offset), (Int64, &length)),
                A,
                want
            )
        );
    }
}

/// Each bound has one row, and is no null.
const BOUNDS: [(Rows<'static>, Rows<'static>, &'static str); 5] = [
    (A, (Int64, &[Some(1)]), "ShapeMismatch"),
    ((Int64, &[Some(1)]), A, "ShapeMismatch"),
    ((Int64, &[Some(1)]), EMPTY, "ShapeMismatch"),
    ((Int64, &[None]), (Int64, &[Some(1)]), "OutOfBounds"),
    ((Int64, &[Some(0)]), (UInt8, &[None]), "OutOfBounds"),
];

#[test]
fn slice_refuses_bounds_that_are_no_single_numbers(rt: HostRuntime) {
    for (offset, length, want) in BOUNDS {
        assert!(rt; gives(rt.alloc(), Call::Slice(offset, length), A, Err(want)));
    }
}

/// Ranges of each form of buffer, by bounds of other types.
const PARTS: [(Rows<'static>, Rows<'static>, Rows<'static>, Rows<'static>); 7] = [
    (
        NUMBERS,
        (Int8, &[Some(-3)]),
        (UInt8, &[Some(2)]),
        (Int8, &[None, Some(1)]),
    ),
    (
        BOOLEANS,
        (UInt8, &[Some(2)]),
        (Int8, &[Some(2)]),
        (Boolean, &[Some(0), None]),
    ),
    (
        STRINGS,
        (Int32, &[Some(1)]),
        (Int32, &[Some(2)]),
        (String, &[Some(4), Some(0)]),
    ),
    (
        NULLS,
        (Int64, &[Some(-1)]),
        (Int64, &[Some(1)]),
        (Null, &[None]),
    ),
    (EMPTY, (Int64, &[Some(-1)]), (Int64, &[Some(2)]), EMPTY),
    (
        A,
        (UInt64, &[Some(1)]),
        (UInt64, &[Some(18446744073709551615)]),
        (Int32, &[Some(2), Some(3)]),
    ),
    (
        A,
        (UInt64, &[Some(18446744073709551615)]),
        (UInt64, &[Some(18446744073709551615)]),
        EMPTY,
    ),
];

#[test]
fn slice_gives_parts_of_each_form(rt: HostRuntime) {
    for (a, offset, length, want) in PARTS {
        assert!(rt; gives(rt.alloc(), Call::Slice(offset, length), a, Ok(want)));
    }
}

/// Of each call on columns of some lengths, which rows it gives: the first, the step from row to row, and how
/// many.
const LONG: [(usize, LongCall, i64, i64, usize); 25] = [
    (0, LongCall::Reverse, 0, -1, 0),
    (1, LongCall::Reverse, 0, -1, 1),
    (63, LongCall::Reverse, 62, -1, 63),
    (64, LongCall::Reverse, 63, -1, 64),
    (65, LongCall::Reverse, 64, -1, 65),
    (129, LongCall::Reverse, 128, -1, 129),
    (0, LongCall::DropNulls, 0, 1, 0),
    (1, LongCall::DropNulls, 0, 1, 0),
    (63, LongCall::DropNulls, 1, 1, 61),
    (64, LongCall::DropNulls, 1, 1, 62),
    (65, LongCall::DropNulls, 1, 1, 63),
    (129, LongCall::DropNulls, 1, 1, 127),
    (0, LongCall::Filter(1), 0, 1, 0),
    (1, LongCall::Filter(1), 0, 1, 1),
    (63, LongCall::Filter(3), 0, 3, 21),
    (64, LongCall::Filter(1), 0, 1, 64),
    (64, LongCall::Filter(63), 0, 63, 2),
    (65, LongCall::Filter(64), 0, 64, 2),
    (129, LongCall::Filter(1), 0, 1, 129),
    (129, LongCall::Filter(128), 0, 128, 2),
    (129, LongCall::Slice(-66, 65), 63, 1, 65),
    (129, LongCall::Slice(64, 64), 64, 1, 64),
    (129, LongCall::Gather(64, 3), 0, 64, 3),
    (65, LongCall::Append(64), 0, 1, 65),
    (129, LongCall::Append(1), 0, 1, 129),
];

#[test]
fn calls_on_long_columns_give_their_rows(rt: HostRuntime) {
    for (len, call, first, step, count) in LONG {
        assert!(rt; gives_rows(rt.alloc(), len, call, first, step, count));
    }
}
