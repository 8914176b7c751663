//! The first places of the least and of the greatest value. A second pass ends at the first row that equals it.
ghost use Rattle.std.specs.Prelude.{◌≡◌, option_map};
ghost use Rattle.std.specs.Option.{option_copied};
ghost use Rattle.px_column.specs.ColumnOf.{rows_of};
ghost use Rattle.px_extremes.specs.Reductions.{first_place};
ghost use Rattle.px_semantics.specs.Comparisons.{equal, both_pass};
ghost use Rattle.px_semantics.specs.Extremes.{position_row, arg_min_row, arg_max_row};
ghost use Rattle.px_semantics.specs.Rows.{boolean_row, integer_row, string_row};

use crate::arms::integers;
use crate::booleans::{greatest_boolean, least_boolean};
use crate::integers::{greatest_integer, least_integer};
use crate::strings::{greatest_string, least_string};
use px_arrays::{BooleanArray, IntegerArray, StringArray};
use px_column::Buffer;
use px_integers::{Integer, Residue};
use std::cmp::Ordering;

/// Whether both are values, and equal.
fn same_boolean(x: Option<bool>, y: Option<bool>) -> bool
    ensures { result ≡ both_pass equal (boolean_row x) (boolean_row y) }
{
    match (x, y) {
        (Some(x), Some(y)) => x == y,
        _ => false,
    }
}

/// Whether both are values, and equal.
fn same_integer<T: Integer>(x: Option<T>, y: Option<T>) -> bool
    ensures { result
        ≡ both_pass equal (integer_row (option_map T.integer x)) (integer_row (option_map T.integer y)) }
{
    match (x, y) {
        (Some(x), Some(y)) => x.is_same(y),
        _ => false,
    }
}

/// Whether both are values, and equal.
fn same_string(x: Option<&str>, y: Option<&str>) -> bool
    ensures { result
        ≡ both_pass equal (string_row (option_copied x.entry)) (string_row (option_copied y.entry)) }
{
    match (x, y) {
        (Some(x), Some(y)) => x.cmp(y) == Ordering::Equal,
        _ => false,
    }
}

/// The first place of a Boolean.
fn boolean_place(rows: &BooleanArray, value: Option<bool>) -> Option<u32>
    ensures { result ≡ first_place (boolean_row value) rows.now }
{
    for i in 0..rows.len() {
        if same_boolean(rows.get(i), value) {
            return Some(i as u32);
        }
    }
    None
}

/// The first place of an integer.
fn integer_place<T: Integer>(rows: &IntegerArray<T>, value: Option<T>) -> Option<u32>
    ensures { result ≡ first_place (integer_row (option_map T.integer value)) rows.now }
{
    for i in 0..rows.len() {
        if same_integer(rows.get(i), value) {
            return Some(i as u32);
        }
    }
    None
}

/// The first place of a string.
fn string_place(rows: &StringArray, value: Option<&str>) -> Option<u32>
    ensures { result ≡ first_place (string_row (option_copied value.entry)) rows.now }
{
    for i in 0..rows.len() {
        if same_string(rows.get(i), value) {
            return Some(i as u32);
        }
    }
    None
}

fn least_boolean_place(rows: &BooleanArray) -> Option<u32>
    ensures { position_row result ≡ arg_min_row rows.now }
{
    prove!(rows.len() < 4294967296);
    boolean_place(rows, least_boolean(rows))
}

fn greatest_boolean_place(rows: &BooleanArray) -> Option<u32>
    ensures { position_row result ≡ arg_max_row rows.now }
{
    prove!(rows.len() < 4294967296);
    boolean_place(rows, greatest_boolean(rows))
}

fn least_integer_place<T: Residue>(rows: &IntegerArray<T>) -> Option<u32>
    ensures { position_row result ≡ arg_min_row rows.now }
{
    prove!(rows.len() < 4294967296);
    integer_place(rows, least_integer(rows))
}

fn greatest_integer_place<T: Residue>(rows: &IntegerArray<T>) -> Option<u32>
    ensures { position_row result ≡ arg_max_row rows.now }
{
    prove!(rows.len() < 4294967296);
    integer_place(rows, greatest_integer(rows))
}

fn least_string_place(rows: &StringArray) -> Option<u32>
    ensures { position_row result ≡ arg_min_row rows.now }
{
    prove!(rows.len() < 4294967296);
    string_place(rows, least_string(rows))
}

fn greatest_string_place(rows: &StringArray) -> Option<u32>
    ensures { position_row result ≡ arg_max_row rows.now }
{
    prove!(rows.len() < 4294967296);
    string_place(rows, greatest_string(rows))
}

/// The first place of the least value. None where there is no value.
pub fn least_place(a: &Buffer) -> Option<u32>
    ensures { position_row result ≡ arg_min_row (rows_of a.now) }
{
    integers!(a {
        Buffer::Null(_) => None,
        Buffer::Boolean(rows) => least_boolean_place(rows),
        Buffer::String(rows) => least_string_place(rows),
    } => least_integer_place(a))
}

/// The first place of the greatest value. None where there is no value.
pub fn greatest_place(a: &Buffer) -> Option<u32>
    ensures { position_row result ≡ arg_max_row (rows_of a.now) }
{
    integers!(a {
        Buffer::Null(_) => None,
        Buffer::Boolean(rows) => greatest_boolean_place(rows),
        Buffer::String(rows) => greatest_string_place(rows),
    } => greatest_integer_place(a))
}
