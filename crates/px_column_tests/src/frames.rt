//! Columns at the ends of their types and with nulls.

use px_column::{Column, ColumnList, Frame, join_lengths, stretch};
use px_test_columns::{Rows, Want, agrees, column, fault, wrong_call};
use px_types::PlanError;
use px_types::ValueType::{self, Boolean, Int8, Null, String};
use std::alloc::Global;
use std::hash::{DefaultHasher, Hash, Hasher};
use std::test::Fail;

/// A call on a column.
#[derive(Clone, Copy)]
enum Call {
    Stretch(u32),
    Copy,
}

fn stretched(alloc: Global, a: &Column, len: u32) -> Result<Column, PlanError> {
    if a.len() != 1 {
        return wrong_call();
    }
    stretch(alloc, a, len)
}

/// A copy, where it is equal.
fn copied(alloc: Global, a: &Column) -> Result<Column, PlanError> {
    let copy = a.try_clone(alloc)?;
    if copy == *a { Ok(copy) } else { wrong_call() }
}

fn called(alloc: Global, call: Call, a: &Column) -> Result<Column, PlanError> {
    match call {
        Call::Stretch(len) => stretched(alloc, a, len),
        Call::Copy => copied(alloc, a),
    }
}

fn answer(alloc: Global, call: Call, a: Rows) -> Result<Column, PlanError> {
    let a = column(alloc, "a", a)?;
    called(alloc, call, &a)
}

/// Whether the call on these rows gives the wanted ones, or the wanted error.
fn gives(alloc: Global, call: Call, a: Rows, want: Want) -> bool {
    agrees(answer(alloc, call, a), want)
}

const TRUTHS: Rows<'static> = (Boolean, &[Some(1), None, Some(0)]);

const BYTES: Rows<'static> = (Int8, &[Some(100), None, Some(-128)]);

const TEXTS: Rows<'static> = (String, &[Some(4), None, Some(0)]);

const NULLS: Rows<'static> = (Null, &[None, None]);

const ROW: Rows<'static> = (Int8, &[Some(5)]);

/// One row is broadcast, and a copy has the rows, also those of two words.
const CALLS: [(Call, Rows<'static>, Want<'static>); 8] = [
    (Call::Stretch(0), ROW, Ok((Int8, &[]))),
    (Call::Stretch(2), ROW, Ok((Int8, &[Some(5), Some(5)]))),
    (Call::Copy, TRUTHS, Ok(TRUTHS)),
    (Call::Copy, BYTES, Ok(BYTES)),
    (Call::Copy, TEXTS, Ok(TEXTS)),
    (Call::Copy, NULLS, Ok(NULLS)),
    (
        Call::Copy,
        (Boolean, &[Some(1); 65]),
        Ok((Boolean, &[Some(1); 65])),
    ),
    (Call::Copy, (Int8, &[Some(128)]), Err("InvalidOperation")),
];

#[test]
fn calls_give_their_rows(rt: HostRuntime) {
    let mut i = 0_u32;
    for (call, a, want) in CALLS {
        assert!(rt; gives(rt.alloc(), call, a, want), "call {i}");
        i = i.saturating_add(1);
    }
    assert_eq!(rt; join_lengths(0, 1), Some(0));
    assert_eq!(rt; join_lengths(2, 3), None);
}

const ENDS: [(ValueType, i128, i128); 8] = [
    (Int8, -128, 127),
    (ValueType::Int16, -32768, 32767),
    (ValueType::Int32, -2147483648, 2147483647),
    (ValueType::Int64, -9223372036854775808, 9223372036854775807),
    (ValueType::UInt8, 0, 255),
    (ValueType::UInt16, 0, 65535),
    (ValueType::UInt32, 0, 4294967295),
    (ValueType::UInt64, 0, 18446744073709551615),
];

/// Whether there is a column of the two numbers and a null, and none of either neighbour.
fn is_range(alloc: Global, value_type: ValueType, low: i128, high: i128) -> bool {
    let rows: Rows = (value_type, &[Some(low), None, Some(high)]);
    let below: Rows = (value_type, &[Some(low.saturating_sub(1))]);
    let above: Rows = (value_type, &[Some(high.saturating_add(1))]);
    agrees(column(alloc, "a", rows), Ok(rows))
        && agrees(column(alloc, "a", below), Err("InvalidOperation"))
        && agrees(column(alloc, "a", above), Err("InvalidOperation"))
}

#[test]
fn integers_reach_to_the_ends_of_their_type(rt: HostRuntime) {
    for (value_type, low, high) in ENDS {
        assert!(rt; is_range(rt.alloc(), value_type, low, high), "{high}");
    }
}

#[test]
fn other_types_hold_no_integer(rt: HostRuntime) {
    for value_type in [Null, Boolean, String] {
        let got = Column::new_int(rt.alloc(), "a", value_type.dtype(), &[Some(0)]);
        assert!(rt; agrees(got, Err("InvalidOperation")));
    }
}

fn push(alloc: Global, columns: &mut ColumnList, name: &str, rows: Rows) -> Result<(), PlanError> {
    columns.try_push(column(alloc, name, rows)?)
}

/// A frame of the columns `a`, of three rows, and another one.
fn frame_or_refusal(alloc: Global, name: &str, rows: Rows) -> Result<Frame, PlanError> {
    let mut columns = ColumnList::new(alloc);
    push(alloc, &mut columns, "a", TRUTHS)?;
    push(alloc, &mut columns, name, rows)?;
    Frame::new(alloc, columns)
}

/// Whether the frame has the two columns, the second under the name.
fn has_two(frame: &Frame, name: &str) -> bool {
    frame.height() == 3
        && frame.columns().len() == 2
        && frame.schema().len() == 2
        && frame.column("a").is_some()
        && frame.column(name).is_some()
        && frame.column("c").is_none()
}

/// The refusal of such a frame, or none where it is right.
fn refusal(alloc: Global, name: &str, rows: Rows) -> Option<&'static str> {
    match frame_or_refusal(alloc, name, rows) {
        Ok(frame) if has_two(&frame, name) => None,
        Ok(_) => Some("wrong columns"),
        Err(error) => Some(fault(&error)),
    }
}

fn empty_height(alloc: Global) -> Result<u32, PlanError> {
    Ok(Frame::new(alloc, ColumnList::new(alloc))?.height())
}

#[test]
fn a_frame_has_distinct_names_and_one_height(rt: HostRuntime) -> Result<(), Fail> {
    let alloc = rt.alloc();
    assert_eq!(rt; refusal(alloc, "b", BYTES), None);
    assert_eq!(rt; refusal(alloc, "b", NULLS), Some("ShapeMismatch"));
    assert_eq!(rt; refusal(alloc, "a", NULLS), Some("Duplicate"));
    assert_eq!(rt; empty_height(alloc)?, 0);
    Ok(())
}

fn hash_of(alloc: Global, rows: Rows) -> Result<u64, PlanError> {
    let column = column(alloc, "a", rows)?;
    let mut hasher = DefaultHasher::new();
    column.hash(&mut hasher);
    drop(column);
    Ok(hasher.finish())
}

// Columns of one type, length and null count of which no two are equal.
const ALIKE: [Rows; 4] = [
    (Int8, &[Some(1), None, Some(3)]),
    (Int8, &[Some(3), None, Some(1)]),
    (Int8, &[None, Some(1), Some(3)]),
    (Int8, &[Some(1), None, Some(4)]),
];

#[test]
fn columns_that_differ_in_a_row_hash_apart(rt: HostRuntime) -> Result<(), Fail> {
    let alloc = rt.alloc();
    let first = hash_of(alloc, ALIKE[0])?;
    assert_eq!(rt; hash_of(alloc, ALIKE[0])?, first);
    for rows in &ALIKE[1..] {
        assert!(rt; hash_of(alloc, *rows)? != first);
    }
    Ok(())
}
