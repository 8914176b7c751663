//! Equality and hashing of columns. Equality is exact: name, type and rows are equal. The hash reads
//! the type, the length, the number of nulls and a few rows.
ghost use Rattle.std.specs.Prelude.{◌≡◌, IsTrue, ◌↔◌, option_map};
ghost use Rattle.std.specs.Option.{option_copied};
ghost use Rattle.px_semantics.specs.Rows.{boolean_row, integer_row, string_row};
ghost use Rattle.std.specs.List.{fold, flat_map};
ghost use Rattle.px_column.specs.ColumnOf.{type_of, rows_of};
ghost use Rattle.px_column.specs.HashInput.{row_input, sample};
ghost use Rattle.px_column.specs.Values.{row_of};

use crate::buffer::Buffer;
use crate::column::Column;
use px_arrays::{BooleanArray, IntegerArray, StringArray};
use px_integers::Integer;
use px_types::AnyValue;
use std::hash::{Hash, Hasher};

fn same_number<T: Integer>(a: Option<T>, b: Option<T>) -> bool
    ensures { IsTrue result ↔ (integer_row (option_map T.integer a) ≡ integer_row (option_map T.integer b)) }
{
    match (a, b) {
        (Some(a), Some(b)) => a.is_same(b),
        (None, None) => true,
        _ => false,
    }
}

fn same_boolean(a: Option<bool>, b: Option<bool>) -> bool
    ensures { IsTrue result ↔ (boolean_row a ≡ boolean_row b) }
{
    match (a, b) {
        (Some(a), Some(b)) => a == b,
        (None, None) => true,
        _ => false,
    }
}

fn same_string(a: Option<&str>, b: Option<&str>) -> bool
    ensures { IsTrue result ↔ (string_row (option_copied a.entry) ≡ string_row (option_copied b.entry)) }
{
    match (a, b) {
        (Some(a), Some(b)) => a == b,
        (None, None) => true,
        _ => false,
    }
}

fn same_numbers<T: Integer>(a: &IntegerArray<T>, b: &IntegerArray<T>) -> bool
    ensures { IsTrue result ↔ (a.now ≡ b.now) }
{
    let len = a.len();
    if len != b.len() {
        return false;
    }
    for i in 0..len {
        if !same_number(a.get(i), b.get(i)) {
            return false;
        }
    }
    true
}

fn same_booleans(a: &BooleanArray, b: &BooleanArray) -> bool
    ensures { IsTrue result ↔ (a.now ≡ b.now) }
{
    let len = a.len();
    if len != b.len() {
        return false;
    }
    for i in 0..len {
        if !same_boolean(a.get(i), b.get(i)) {
            return false;
        }
    }
    true
}

fn same_strings(a: &StringArray, b: &StringArray) -> bool
    ensures { IsTrue result ↔ (a.now ≡ b.now) }
{
    let len = a.len();
    if len != b.len() {
        return false;
    }
    for i in 0..len {
        if !same_string(a.get(i), b.get(i)) {
            return false;
        }
    }
    true
}

/// Whether the rows of two buffers of one type are equal.
fn same_rows(a: &Buffer, b: &Buffer) -> bool
    requires { type_of a.now ≡ type_of b.now }
    ensures { IsTrue result ↔ (rows_of a.now ≡ rows_of b.now) }
{
    match (a, b) {
        (Buffer::Null(_), Buffer::Null(_)) => a.len() == b.len(),
        (Buffer::Boolean(a), Buffer::Boolean(b)) => same_booleans(a, b),
        (Buffer::String(a), Buffer::String(b)) => same_strings(a, b),
        (Buffer::Int8(a), Buffer::Int8(b)) => same_numbers(a, b),
        (Buffer::Int16(a), Buffer::Int16(b)) => same_numbers(a, b),
        (Buffer::Int32(a), Buffer::Int32(b)) => same_numbers(a, b),
        (Buffer::Int64(a), Buffer::Int64(b)) => same_numbers(a, b),
        (Buffer::UInt8(a), Buffer::UInt8(b)) => same_numbers(a, b),
        (Buffer::UInt16(a), Buffer::UInt16(b)) => same_numbers(a, b),
        (Buffer::UInt32(a), Buffer::UInt32(b)) => same_numbers(a, b),
        (Buffer::UInt64(a), Buffer::UInt64(b)) => same_numbers(a, b),
        _ => unreachable!(),
    }
}

fn same_column(a: &Column, b: &Column) -> bool
    ensures { IsTrue result ↔ (a.now ≡ b.now) }
{
    if a.value_type() != b.value_type() {
        return false;
    }
    *a.name() == *b.name() && same_rows(a.buffer(), b.buffer())
}

/// Whether a value is there, and which one.
fn hash_value<H: Hasher>(value: AnyValue<'_>, state: &mut H)
    ensures { state.new ≡ fold H.write state.old (row_input (row_of value.entry)) }
{
    match value {
        AnyValue::Boolean(value) => Some(value).hash(state),
        AnyValue::String(text) => Some(text).hash(state),
        AnyValue::Int8(value) => Some(i128::from(value)).hash(state),
        AnyValue::Int16(value) => Some(i128::from(value)).hash(state),
        AnyValue::Int32(value) => Some(i128::from(value)).hash(state),
        AnyValue::Int64(value) => Some(i128::from(value)).hash(state),
        AnyValue::UInt8(value) => Some(i128::from(value)).hash(state),
        AnyValue::UInt16(value) => Some(i128::from(value)).hash(state),
        AnyValue::UInt32(value) => Some(i128::from(value)).hash(state),
        AnyValue::UInt64(value) => Some(i128::from(value)).hash(state),
        _ => None::<bool>.hash(state),
    }
}

/// At most so many rows does the hash read.
const SAMPLE: u64 = 8;

fn hash_sample<H: Hasher>(column: &Column, state: &mut H)
    ensures { state.new ≡ fold H.write state.old (flat_map row_input (sample column.now.values.rows)) }
{
    let len = u64::from(column.len());
    let count = len.min(SAMPLE);
    for i in 0..count {
        hash_value(column.get((i * len / count) as u32), state);
    }
}

impl PartialEq for Column {
    ghost use Rattle.px_base.specs.Exact.{same};
    ghost use Rattle.px_base.proofs.Exact.{same-partial};
    ghost use Rattle.px_column.specs.contracts.column.Column.{the_row};
    ghost use Rattle.std.specs.Prelude.{◌≡◌, IsTrue, ◌↔◌};

    ghost eq = { same the_row.coded };

    ghost laws = { same-partial the_row.coded };

    fn eq(&self, other: &Column) -> bool
        ensures value { result ≡ same the_row.coded self.now other.now }
        ensures exact { IsTrue result ↔ (self.now ≡ other.now) }
    {
        same_column(self, other)
    }
}

impl Eq for Column {
    ghost use Rattle.px_base.proofs.Exact.{same-equivalence};
    ghost use Rattle.px_column.specs.contracts.column.Column.{the_row};

    ghost laws = { same-equivalence the_row.coded };
}

impl Hash for Column {
    ghost use Rattle.px_base.proofs.Exact.{same-decides};
    ghost use Rattle.px_column.specs.contracts.column.Column.{the_row};
    ghost use Rattle.px_column.specs.HashInput.{column_input};
    ghost use Rattle.std.specs.Hash.{same_Alike};

    ghost hash_input = { column_input };

    ghost respects_eq = { (same_Alike column_input (same-decides the_row.coded)).fed };

    fn hash<H: Hasher>(&self, state: &mut H) {
        self.dtype().hash(state);
        self.len().hash(state);
        self.null_count().hash(state);
        hash_sample(self, state);
    }
}
